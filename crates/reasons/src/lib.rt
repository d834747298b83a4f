// Why each node is chosen or freed: the stages of the choice, each free removal in two parts. First goes what has no arc in: no core vertex leads to it. Then what has
// no arc out: it leads to none. The second part leaves every other vertex its arcs in, so each part is done once a stage. Each entry is written where it belongs as
// soon as it is known.
#![tactic(auto)]

ghost use Rattle.std.specs.Prelude.{◌≡◌, [], ◌∷◌, ◌+◌, ◌-◌, ◌*◌, ◌<◌, ◌≤◌, ◌^◌, length, get_or};
ghost use Rattle.le.specs.Le.{words, Outside};
ghost use Rattle.tables.specs.Tables.{most_vertices, waiting_at, queue_at, room_removal, room_choice};
ghost use Rattle.halves.specs.Halves.{lower_all, raise_to};
ghost use Rattle.incidence.specs.Incidence.{source_in};
ghost use Rattle.removal.specs.Room.{source, part, halves_in, list_in, Roomy, Lists, Went};
ghost use Rattle.form.specs.Form.{Gives};
ghost use Rattle.form.specs.Drawn.{graph_in};
ghost use Rattle.choice.specs.Reasons.{numbers_of, not_led_to};
ghost use Rattle.reasons.specs.Told.{meant, entered, freed_half, freed_all, waited_from, Settled, raised, end_at, ends_in, Begun, Explaining, Chose, Explained};
ghost use Rattle.choice.specs.Calls.{reasons_call};
ghost use Rattle.queue.specs.Keys.{Queued};
ghost use Rattle.queue.specs.Places.{keys_in};
ghost use Rattle.cycle.specs.Next.{may, NoneKept, degrees_in};

use form::{Done, Drawing, Refusal};
use le::Row;

// The bytes of work room that the call needs.
pub const ROOM_REASONS: usize = tables::CHOICE_BYTES;

// Why a node is no more, and in which stage it went.
#[derive(Clone, Copy)]
enum Reason {
    // With its arcs in and out at that moment.
    Chosen(u32, u32, u32),
    NotLedTo(u32),
    LeadsToNone(u32),
}

impl Reason {
    // The numbers of an entry: the kind, the stage, the arcs in and out.
    fn numbers(self) -> [u32; 4]
        ensures { result ≡ numbers_of (meant self) }
    {
        match self {
            Reason::Chosen(stage, ins, outs) => [0, stage, ins, outs],
            Reason::NotLedTo(stage) => [1, stage, 0, 0],
            Reason::LeadsToNone(stage) => [2, stage, 0, 0],
        }
    }
}

// The bytes of an entry.
const ENTRY: usize = 16;

// The entry of node v.
fn put_reason(out: &mut [u8], v: usize, why: Reason)
    requires { 16 * v + 16 ≤ length out.old }
    ensures { out.new ≡ entered out.old v (numbers_of (meant why)) }
{
    let at = ENTRY * v;
    let numbers = why.numbers();
    le::put4(out, at, numbers[0]);
    le::put4(out, at + 4, numbers[1]);
    le::put4(out, at + 8, numbers[2]);
    le::put4(out, at + 12, numbers[3]);
}

// Half y has gone: if its vertex is a node, it was freed.
fn put_half(out: &mut [u8], nodes: usize, y: usize, why: Reason)
    requires { 16 * nodes ≤ length out.old }
    ensures { out.new ≡ freed_half nodes (meant why) y out.old }
{
    let v = y / 2;
    if v >= nodes {
        return;
    }
    put_reason(out, v, why);
}

// The same for each of `count` halves that have waited, from place `from` on.
fn put_freed(out: &mut [u8], room: &[u8], nodes: usize, from: usize, count: usize, why: Reason)
    requires { (16 * nodes ≤ length out.old) × (from + count ≤ most_vertices) × (room_removal ≤ length room.now) }
    ensures { out.new ≡ freed_all nodes (meant why) (part (words room.now) (waiting_at + from) count) out.old }
{
    for j in 0..count {
        let y = le::word(room, tables::WAITING + from + j) as usize;
        put_half(out, nodes, y, why);
    }
}

// Each half that waits from place `from` on is walked, until none waits, and its node is told freed.
fn settle(
    out: &mut [u8],
    room: &mut [u8],
    s: &[u8],
    r: Row,
    nodes: usize,
    n: usize,
    from: usize,
    end: usize,
    why: Reason,
) -> usize
    requires nodes_in_bounds { (16 * nodes ≤ length out.old) × (from ≤ end) × (n ≤ most_vertices) × (nodes ≤ n) × (end ≤ n) × (room_removal ≤ length room.old) }
    requires roomy { Roomy n (halves_in (words room.old) n end) × Lists (source s.now r) (words room.old) nodes n }
    ensures { Settled (source s.now r) (words room.old) (words room.new) nodes n from result (halves_in (words room.old) n end)
        × (out.new ≡ freed_all nodes (meant why) (waited_from (words room.new) n from result) out.old) }
{
    let last = removal::peel(room, s, r, nodes, n, from, end);
    put_freed(out, room, nodes, from, last - from, why);
    last
}

// The list of half y is walked, and then each half that waits.
fn walk(
    out: &mut [u8],
    room: &mut [u8],
    s: &[u8],
    r: Row,
    nodes: usize,
    n: usize,
    y: usize,
    end: usize,
    why: Reason,
) -> usize
    requires nodes_in_bounds { (16 * nodes ≤ length out.old) × (y < 2 * n) × (n ≤ most_vertices) × (nodes ≤ n) × (end ≤ n) × (room_removal ≤ length room.old) }
    requires roomy { Roomy n (halves_in (words room.old) n end) × Lists (source s.now r) (words room.old) nodes n }
    ensures { Settled (source s.now r) (words room.old) (words room.new) nodes n end result
        (lower_all (list_in (source s.now r) (words room.old) nodes y) (halves_in (words room.old) n end))
        × (out.new ≡ freed_all nodes (meant why) (waited_from (words room.new) n end result) out.old) }
{
    let gone = removal::lower_all(room, s, r, nodes, n, y, end);
    settle(out, room, s, r, nodes, n, end, gone, why)
}

// A vertex without an arc out is given one.
fn raise(room: &mut [u8], x: usize)
    requires { 8 * x + 8 ≤ length room.old }
    ensures { words room.new ≡ raised x (words room.old) }
{
    if le::word(room, 2 * x + 1) != 0 {
        return;
    }
    le::set_word(room, 2 * x + 1, 1);
}

// The same for each of n vertices, so that what has no arc out does not go before its part.
fn raise_ends(room: &mut [u8], n: usize)
    requires { (n ≤ most_vertices) × (room_removal ≤ length room.old) }
    ensures { Went (words room.old) (words room.new) n 0 (record { degrees = raise_to n (halves_in (words room.old) n 0).degrees; waiting = [] }) }
{
    for x in 0..n {
        raise(room, x);
    }
}

// The arc that vertex x was given goes, if it was given one: no arc leads on from it.
fn lower_end(room: &mut [u8], n: usize, x: usize, end: usize) -> usize
    requires x_lt_n { (x < n) × (n ≤ most_vertices) × (end ≤ n) × (room_removal ≤ length room.old) }
    requires roomy { Roomy n (halves_in (words room.old) n end) }
    ensures { Went (words room.old) (words room.new) n result (lower_all (end_at (words room.old) x) (halves_in (words room.old) n end)) }
{
    if le::word(room, tables::LISTS + 4 * x + 1) != 0 {
        return end;
    }
    removal::lower(room, n, 2 * x + 1, end)
}

// The same for each of n vertices.
fn lower_ends(room: &mut [u8], n: usize, end: usize) -> usize
    requires n_le_most_vertices { (n ≤ most_vertices) × (end ≤ n) × (room_removal ≤ length room.old) }
    requires roomy { Roomy n (halves_in (words room.old) n end) }
    ensures { Went (words room.old) (words room.new) n result (lower_all (ends_in (words room.old) n) (halves_in (words room.old) n end)) }
{
    let mut last = end;
    for x in 0..n {
        last = lower_end(room, n, x, last);
    }
    last
}

// The incidence graph of the stored drawing, and what has no arc in gone and told; answered is how many vertices that are.
fn first_part(out: &mut [u8], room: &mut [u8], drawing: Drawing<'_>) -> usize
    requires nodes_in_bounds { (16 * drawing.sizes.nodes ≤ length out.old) × (room_removal ≤ length room.old) }
    ensures { Begun (source_in drawing.entry) (graph_in drawing.entry) (words room.new) drawing.entry.sizes.nodes (drawing.entry.sizes.nodes + drawing.entry.sizes.edges) result
        × (out.new ≡ freed_all drawing.entry.sizes.nodes (not_led_to 1) (waited_from (words room.new) (drawing.entry.sizes.nodes + drawing.entry.sizes.edges) 0 result) out.old) }
{
    let z = drawing.sizes;
    incidence::build(room, drawing);
    let n = z.nodes + z.edges;
    raise_ends(room, n);
    let seeds = removal::seed_all(room, n);
    settle(
        out,
        room,
        drawing.src,
        drawing.body(),
        z.nodes,
        n,
        0,
        seeds,
        Reason::NotLedTo(1),
    )
}

// The first free removal, in its two parts; answered is how many vertices went.
fn first_removal(out: &mut [u8], room: &mut [u8], drawing: Drawing<'_>) -> usize
    requires nodes_in_bounds { (16 * drawing.sizes.nodes ≤ length out.old) × (room_removal ≤ length room.old) }
    ensures { Explaining (source_in drawing.entry) (graph_in drawing.entry) (words room.new) out.new drawing.entry.sizes.nodes (drawing.entry.sizes.nodes + drawing.entry.sizes.edges) result 1
        × Outside 0 (16 * drawing.entry.sizes.nodes) out.old out.new }
{
    let z = drawing.sizes;
    let mid = first_part(out, room, drawing);
    let n = z.nodes + z.edges;
    let gone = lower_ends(room, n, mid);
    settle(
        out,
        room,
        drawing.src,
        drawing.body(),
        z.nodes,
        n,
        mid,
        gone,
        Reason::LeadsToNone(1),
    )
}

// The entry of a chosen node, with its present arcs in and out.
fn put_chosen(out: &mut [u8], room: &[u8], best: usize, stage: u32)
    requires { (16 * best + 16 ≤ length out.old) × (8 * best + 8 ≤ length room.now) }
    ensures { out.new ≡ entered out.old best (0 ∷ stage ∷ get_or (words room.now) (2 * best) 0 ∷ get_or (words room.now) (2 * best + 1) 0 ∷ []) }
{
    let ins = le::word(room, 2 * best);
    let outs = le::word(room, 2 * best + 1);
    put_reason(out, best, Reason::Chosen(stage, ins, outs));
}

// One stage: the best node is told chosen and goes, and then what may go freely, in two parts, as the next stage tells it; answered is how many went freely so far.
fn choose(
    out: &mut [u8],
    room: &mut [u8],
    s: &[u8],
    r: Row,
    nodes: usize,
    n: usize,
    best: usize,
    end: usize,
    stage: u32,
) -> usize
    requires nodes_in_bounds { (16 * nodes ≤ length out.old) × (stage + 1 < 2 ^ 32) × (best < nodes) × (n ≤ most_vertices) × (nodes ≤ n) × (end ≤ n) × (room_removal ≤ length room.old) }
    requires roomy { Roomy n (halves_in (words room.old) n end) × Lists (source s.now r) (words room.old) nodes n }
    ensures { Chose (source s.now r) (words room.old) (words room.new) out.old out.new nodes n best end stage result }
{
    put_chosen(out, room, best, stage);
    le::set_word(room, 2 * best, 0);
    le::set_word(room, 2 * best + 1, 0);
    let mid = walk(
        out,
        room,
        s,
        r,
        nodes,
        n,
        2 * best,
        end,
        Reason::NotLedTo(stage + 1),
    );
    walk(
        out,
        room,
        s,
        r,
        nodes,
        n,
        2 * best + 1,
        mid,
        Reason::LeadsToNone(stage + 1),
    )
}

// All stages, the first removal being done and the queue made; answered is how many nodes are chosen.
fn explain(out: &mut [u8], room: &mut [u8], drawing: Drawing<'_>, m: usize, end: usize) -> usize
    requires nodes_in_bounds { (16 * drawing.sizes.nodes ≤ length out.old) × (0 < m) × (4 * (queue_at + 2 * m) ≤ length room.old) }
    requires explaining { Explaining (source_in drawing) (graph_in drawing) (words room.old) out.old drawing.sizes.nodes (drawing.sizes.nodes + drawing.sizes.edges) end 1 }
    requires queued { Queued (may (words room.old) drawing.sizes.nodes) (degrees_in (words room.old) (drawing.sizes.nodes + drawing.sizes.edges)) (keys_in (words room.old) queue_at m) × NoneKept (words room.old) drawing.sizes.nodes }
    ensures { Explained (graph_in drawing.entry) out.old out.new drawing.entry.sizes.nodes result }
{
    let z = drawing.sizes;
    let n = z.nodes + z.edges;
    let r = drawing.body();
    let mut last = end;
    let mut ids: usize = 0;
    while last + ids != n {
        let best = cycle::next_candidate(room, z.nodes, n, m);
        ids += 1;
        last = choose(
            out,
            room,
            drawing.src,
            r,
            z.nodes,
            n,
            best,
            last,
            ids as u32,
        );
    }
    ids
}

// The reasons of a stored drawing's nodes; answered is how many are chosen. Where none is queued after the first removal, nothing is left.
fn put_reasons(out: &mut [u8], room: &mut [u8], drawing: Drawing<'_>) -> usize
    requires { (16 * drawing.sizes.nodes ≤ length out.old) × (room_choice ≤ length room.old) }
    ensures { Explained (graph_in drawing.entry) out.old out.new drawing.entry.sizes.nodes result }
{
    let z = drawing.sizes;
    let end = first_removal(out, room, drawing);
    let n = z.nodes + z.edges;
    le::clear_words(room, tables::PICKED, z.nodes);
    let m = cycle::make_queue(room, z.nodes, n, 0);
    if m == 0 {
        return 0;
    }
    explain(out, room, drawing, m, end)
}

// Why each node of the stored drawing is chosen or freed: how many entries stand in the buffer, and how many nodes are chosen.
pub fn reasons(src: &[u8], out: &mut [u8], room: &mut [u8]) -> Result<Done, Refusal>
    ensures { Gives (reasons_call src.now (length out.old) (length room.old)) result out.old out.new }
{
    lists::work_room(room.len(), ROOM_REASONS)?;
    let drawing = read::read(src)?;
    let z = drawing.sizes;
    lists::unpaired(z)?;
    if out.len() < ENTRY * z.nodes {
        return Err(Refusal::NoRoom);
    }
    let ids = put_reasons(out, room, drawing);
    Ok(Done { a: z.nodes, b: ids })
}
