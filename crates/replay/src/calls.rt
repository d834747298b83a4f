// The exported functions by their numbers in the recorded list: the rows of tests/differential/src/rows. Those that take the same
// stand in one function here, which answers whether the call returns what is due. A number that stands in none of them differs.
ghost use Rattle.std.specs.Prelude.{◌≡◌, true, List, ℕ, length};
ghost use Rattle.replay.specs.Due.{Handed, Agreed, handed_by};

use crate::list::{NO_ROOM, Record, bytes_of};

fn none_in(operation: u8, out: &mut [u8], due: u64) -> bool
    ensures { result ≡ true → (h : Handed) → (h.out ≡ (length out.old)) → (m : List ℕ) → Agreed operation h due out.old out.new m m }
{
    match operation {
        2 => ohg::ohg_empty(out) == due,
        _ => false,
    }
}

fn one_in(operation: u8, src: &[u8], out: &mut [u8], due: u64) -> bool
    ensures { result ≡ true → (h : Handed) → (h.one ≡ src.now) × (h.out ≡ (length out.old)) → (m : List ℕ) → Agreed operation h due out.old out.new m m }
{
    match operation {
        0 => ohg::ohg_read(src, out) == due,
        1 => ohg::ohg_rewrite(src, out) == due,
        3 => ohg::ohg_discrete(src, out) == due,
        4 => ohg::ohg_identity(src, out) == due,
        _ => false,
    }
}

fn number_and_one_in(operation: u8, x: u32, src: &[u8], out: &mut [u8], due: u64) -> bool
    ensures { result ≡ true → (h : Handed) → (h.x ≡ x) × (h.one ≡ src.now) × (h.out ≡ (length out.old)) → (m : List ℕ) → Agreed operation h due out.old out.new m m }
{
    match operation {
        6 => ohg::ohg_new_node(src, x, out) == due,
        _ => false,
    }
}

fn number_and_two_in(
    operation: u8,
    x: u32,
    one: &[u8],
    two: &[u8],
    out: &mut [u8],
    due: u64,
) -> bool
    ensures { result ≡ true → (h : Handed) → (h.x ≡ x) × (h.one ≡ one.now) × (h.two ≡ two.now) × (h.out ≡ (length out.old)) → (m : List ℕ) → Agreed operation h due out.old out.new m m }
{
    match operation {
        5 => ohg::ohg_singleton(x, one, two, out) == due,
        _ => false,
    }
}

fn number_and_three_in(
    operation: u8,
    x: u32,
    src: &[u8],
    one: &[u8],
    two: &[u8],
    out: &mut [u8],
    due: u64,
) -> bool
    ensures { result ≡ true → (h : Handed) → (h.x ≡ x) × (h.one ≡ src.now) × (h.two ≡ one.now) × (h.three ≡ two.now) × (h.out ≡ (length out.old)) → (m : List ℕ) → Agreed operation h due out.old out.new m m }
{
    match operation {
        7 => ohg::ohg_new_edge(src, x, one, two, out) == due,
        8 => ohg::ohg_new_operation(src, x, one, two, out) == due,
        _ => false,
    }
}

fn two_numbers_and_one_in(
    operation: u8,
    x: u32,
    y: u32,
    src: &[u8],
    out: &mut [u8],
    due: u64,
) -> bool
    ensures { result ≡ true → (h : Handed) → (h.x ≡ x) × (h.y ≡ y) × (h.one ≡ src.now) × (h.out ≡ (length out.old)) → (m : List ℕ) → Agreed operation h due out.old out.new m m }
{
    match operation {
        9 => ohg::ohg_unify(src, x, y, out) == due,
        10 => ohg::ohg_add_edge_source(src, x, y, out) == due,
        11 => ohg::ohg_add_edge_target(src, x, y, out) == due,
        _ => false,
    }
}

// The functions without work room, by what they take: the digits count numbers, inputs and answer buffers.
fn without_room(list: &[u8], recorded: Record, out: &mut [u8]) -> bool
    ensures { result ≡ true → (map room : ℕ) (m : List ℕ) → Agreed recorded.operation (handed_by list.now recorded (length out.old) map room) recorded.due out.old out.new m m }
{
    let operation = recorded.operation;
    let shape = recorded.shape;
    let due = recorded.due;
    let numbers = recorded.numbers;
    let x = numbers.one;
    let y = numbers.two;
    let inputs = recorded.inputs;
    let one = bytes_of(list, inputs.one);
    let two = bytes_of(list, inputs.two);
    let three = bytes_of(list, inputs.three);
    match shape {
        1 => none_in(operation, out, due),
        11 => one_in(operation, one, out, due),
        111 => number_and_one_in(operation, x, one, out, due),
        121 => number_and_two_in(operation, x, one, two, out, due),
        131 => number_and_three_in(operation, x, one, two, three, out, due),
        211 => two_numbers_and_one_in(operation, x, y, one, out, due),
        _ => false,
    }
}

fn yes_or_no(operation: u8, src: &[u8], room: &mut [u8], due: u64) -> bool
    ensures { result ≡ true → (h : Handed) → (h.one ≡ src.now) × (h.room ≡ (length room.old)) → (o m : List ℕ) → Agreed operation h due o o m m }
{
    match operation {
        17 => ohg::ohg_no_loop(src, room) == due,
        18 => ohg::ohg_once_fed(src, room) == due,
        _ => false,
    }
}

fn one_in_with_room(operation: u8, src: &[u8], out: &mut [u8], room: &mut [u8], due: u64) -> bool
    ensures { result ≡ true → (h : Handed) → (h.one ≡ src.now) × (h.out ≡ (length out.old)) × (h.room ≡ (length room.old)) → (m : List ℕ) → Agreed operation h due out.old out.new m m }
{
    match operation {
        14 => ohg::ohg_cycle_breaking_nodes(src, out, room) == due,
        15 => ohg::ohg_spiderize(src, out, room) == due,
        22 => ohg::ohg_find_loop(src, out, room) == due,
        23 => ohg::ohg_reasons(src, out, room) == due,
        _ => false,
    }
}

fn two_in_with_room(
    operation: u8,
    src: &[u8],
    ids: &[u8],
    out: &mut [u8],
    room: &mut [u8],
    due: u64,
) -> bool
    ensures { result ≡ true → (h : Handed) → (h.one ≡ src.now) × (h.two ≡ ids.now) × (h.out ≡ (length out.old)) × (h.room ≡ (length room.old)) → (m : List ℕ) → Agreed operation h due out.old out.new m m }
{
    match operation {
        12 => ohg::ohg_delete_edges(src, ids, out, room) == due,
        16 => ohg::ohg_spiderize_nodes(src, ids, out, room) == due,
        20 => ohg::ohg_cycle_breaking_nodes_keeping(src, ids, out, room) == due,
        21 => ohg::ohg_cycle_breaking_nodes_scanning(src, ids, out, room) == due,
        _ => false,
    }
}

fn one_in_two_out_with_room(
    operation: u8,
    src: &[u8],
    out: &mut [u8],
    map: &mut [u8],
    room: &mut [u8],
    due: u64,
) -> bool
    ensures { result ≡ true → (h : Handed) → (h.one ≡ src.now) × (h.out ≡ (length out.old)) × (h.map ≡ (length map.old)) × (h.room ≡ (length room.old)) → Agreed operation h due out.old out.new map.old map.new }
{
    match operation {
        19 => ohg::ohg_quotient(src, out, map, room) == due,
        _ => false,
    }
}

fn two_out_with_room(
    operation: u8,
    src: &[u8],
    ids: &[u8],
    out: &mut [u8],
    map: &mut [u8],
    room: &mut [u8],
    due: u64,
) -> bool
    ensures { result ≡ true → (h : Handed) → (h.one ≡ src.now) × (h.two ≡ ids.now) × (h.out ≡ (length out.old)) × (h.map ≡ (length map.old)) × (h.room ≡ (length room.old)) → Agreed operation h due out.old out.new map.old map.new }
{
    match operation {
        13 => ohg::ohg_delete_nodes(src, ids, out, map, room) == due,
        _ => false,
    }
}

// The functions with work room, which is as long here as recorded.
fn with_room(list: &[u8], recorded: Record, out: &mut [u8], map: &mut [u8], room: &mut [u8]) -> bool
    ensures { result ≡ true → Agreed recorded.operation (handed_by list.now recorded (length out.old) (length map.old) (length room.old)) recorded.due
        out.old out.new map.old map.new }
{
    let operation = recorded.operation;
    let shape = recorded.shape;
    let due = recorded.due;
    let inputs = recorded.inputs;
    let one = bytes_of(list, inputs.one);
    let two = bytes_of(list, inputs.two);
    match shape {
        10 => yes_or_no(operation, one, room, due),
        11 => one_in_with_room(operation, one, out, room, due),
        12 => one_in_two_out_with_room(operation, one, out, map, room, due),
        21 => two_in_with_room(operation, one, two, out, room, due),
        22 => two_out_with_room(operation, one, two, out, map, room, due),
        _ => false,
    }
}

// Whether the function of a recorded call, lent these buffers, returns what is due. It is lent as much of the room as was recorded.
pub fn returns_due(
    list: &[u8],
    recorded: Record,
    out: &mut [u8],
    map: &mut [u8],
    room: &mut [u8],
) -> bool
    ensures { result ≡ true → Agreed recorded.operation (handed_by list.now recorded (length out.old) (length map.old) recorded.room) recorded.due
        out.old out.new map.old map.new }
{
    if recorded.room == NO_ROOM {
        return without_room(list, recorded, out);
    }
    let n = recorded.room as usize;
    if n <= room.len() {
        return with_room(list, recorded, out, map, &mut room[0..n]);
    }
    false
}
