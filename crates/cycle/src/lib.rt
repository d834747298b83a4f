// The choice of cycle-breaking nodes, with kept nodes and without, and the no-loop check, from cycle.rs: after the first free removal each stage takes the top of the
// queue, once it agrees with the present degrees, and then all that may go freely.
#![tactic(auto)]

ghost use Rattle.std.specs.Prelude.{◌≡◌, ℕ, ◌+◌, ◌-◌, ◌*◌, ◌/◌, ◌<◌, ◌≤◌, ◌^◌, T, length, get_or};
ghost use Rattle.tables.specs.Tables.{most_nodes, most_vertices, picked_at, queue_at, room_removal, room_choice};
ghost use Rattle.le.specs.Le.{words, Wide, Below};
ghost use Rattle.le.specs.Rows.{Holds, row_at, span, puts};
ghost use Rattle.choice.specs.Drawing.{chosen, no_loop};
ghost use Rattle.choice.specs.Calls.{listing, no_loop_call, cycle_breaking_nodes_call, cycle_breaking_nodes_keeping_call};
ghost use Rattle.form.specs.Form.{told, outcome, Gives};
ghost use Rattle.graph.specs.Graph.{Format};
ghost use Rattle.form.specs.Stored.{format_of};
ghost use Rattle.form.specs.Drawn.{graph_in};
ghost use Rattle.cycle.specs.Begin.{First, kept_marked, ChosenIn, chosen_as, keeping_listed, is_flagged};
ghost use Rattle.choice.specs.Passing.{shown, shown_below};
ghost use Rattle.incidence.specs.Incidence.{source_in};
ghost use Rattle.removal.specs.Room.{source};
ghost use Rattle.queue.specs.Keys.{radix, key, id_of, in_of, score_of, Heap, Queued};
ghost use Rattle.queue.specs.Places.{keys_in};
ghost use Rattle.cycle.specs.Next.{candidate_of, may, NoneKept, degrees_in, Agreed};
ghost use Rattle.cycle.specs.Stage.{Standing, Staged, Underway, Answered, AllSmall, Entered, Made};

use form::{Done, Drawing, Refusal, Sizes};
use le::Row;

// The bytes of work room that each call needs.
pub const ROOM_NO_LOOP: usize = tables::REMOVAL_BYTES;

pub const ROOM_CYCLE_BREAKING_NODES: usize = tables::CHOICE_BYTES;

pub const ROOM_CYCLE_BREAKING_NODES_KEEPING: usize = tables::CHOICE_BYTES;

// The flag of a node that is chosen, and of one that is kept: words and no enum, since they stand in lent memory.
const CHOSEN: u32 = 1;

const KEPT: u32 = 2;

// A node as the queue sees it: its score, its id, and its arcs in and out.
#[derive(Clone, Copy)]
pub struct Candidate {
    pub score: u64,
    pub id: usize,
    pub indegree: u64,
    pub outdegree: u64,
}

// Node v with its present degrees.
fn candidate_now(room: &[u8], v: usize) -> Candidate
    requires v_lt_radix { (v < radix) × (4 * (2 * v + 2) ≤ length room.now) }
    requires v_bound { (get_or (words room.now) (2 * v) 0 < radix) × (get_or (words room.now) (2 * v + 1) 0 < radix) }
    ensures { result ≡ candidate_of v (get_or (words room.now) (2 * v) 0) (get_or (words room.now) (2 * v + 1) 0) }
{
    let indegree = le::word(room, 2 * v) as u64;
    let outdegree = le::word(room, 2 * v + 1) as u64;
    Candidate {
        score: indegree * outdegree,
        id: v,
        indegree,
        outdegree,
    }
}

// A candidate as one number, as the queue has it: larger score first, lower id on a tie; with the arcs in, the score also says the arcs out.
fn pack(c: Candidate) -> u64
    requires { (c.score < radix * radix) × (c.id < radix) × (c.indegree < radix) }
    ensures { result ≡ c.score * (radix * radix) + (radix - 1 - c.id) * radix + c.indegree }
{
    c.score * queue::SQUARE + (queue::RADIX - 1 - c.id as u64) * queue::RADIX + c.indegree
}

// The candidate that a number of the queue stands for.
fn unpack(k: u64) -> Candidate
    ensures { (result.score ≡ score_of k) × (result.id ≡ id_of k) × (result.indegree ≡ in_of k) × (0 < in_of k → result.outdegree ≡ score_of k / in_of k) }
{
    let score = k / queue::SQUARE;
    let id = (queue::RADIX - 1 - (k / queue::RADIX) % queue::RADIX) as usize;
    let indegree = k % queue::RADIX;
    if indegree == 0 {
        return Candidate {
            score,
            id,
            indegree,
            outdegree: 0,
        };
    }
    Candidate {
        score,
        id,
        indegree,
        outdegree: score / indegree,
    }
}

// The key of node v with its present degrees.
fn key_now(room: &[u8], v: usize) -> u64
    requires v_lt_radix { (v < radix) × (4 * (2 * v + 2) ≤ length room.now) }
    requires v_bound { (get_or (words room.now) (2 * v) 0 < radix) × (get_or (words room.now) (2 * v + 1) 0 < radix) }
    ensures { result ≡ key v (get_or (words room.now) (2 * v) 0) (get_or (words room.now) (2 * v + 1) 0) }
{
    pack(candidate_now(room, v))
}

// The best of the nodes that may be chosen, of which m are queued; one that has gone, if all of them have.
pub fn next_candidate(room: &mut [u8], nodes: usize, n: usize, m: usize) -> usize
    requires nodes_le_n { (nodes ≤ n) × (n ≤ most_vertices) × (0 < m) × (4 * (queue_at + 2 * m) ≤ length room.old) }
    requires queued { Queued (may (words room.old) nodes) (degrees_in (words room.old) n) (keys_in (words room.old) queue_at m) }
    ensures { Agreed (words room.old) (words room.new) nodes n m result }
{
    loop {
        let top = queue::key_at(room, tables::QUEUE, 0);
        let c = unpack(top);
        let present = key_now(room, c.id);
        if present == top {
            return c.id;
        }
        queue::sink(room, tables::QUEUE, m, present);
    }
}

// One stage: the best node is flagged and goes, and then all that may go freely. Nothing waits before or after; answered is how many went freely so far.
pub fn stage(
    room: &mut [u8],
    s: &[u8],
    r: Row,
    nodes: usize,
    n: usize,
    m: usize,
    best: usize,
    end: usize,
) -> usize
    requires nodes_le_n { (nodes ≤ n) × (nodes ≤ most_nodes) × (n ≤ most_vertices) × (end ≤ n) × (4 * (queue_at + 2 * m) ≤ length room.old) }
    requires standing { Standing (source s.now r) (words room.old) nodes n m end × T (may (words room.old) nodes best) }
    ensures { Staged (source s.now r) (words room.old) (words room.new) nodes n m best end result }
{
    le::set_word(room, tables::PICKED + best, CHOSEN);
    let gone = removal::remove_vertex(room, s, r, nodes, n, best, end);
    removal::peel(room, s, r, nodes, n, end, gone)
}

// All stages, the first free removal being done and the queue made: the flags are then those of the choice, and answered is how many went freely; or the stages
// end with 16 at a core of which nothing may be chosen.
pub fn greedy_feedback_nodes(
    room: &mut [u8],
    s: &[u8],
    r: Row,
    nodes: usize,
    n: usize,
    m: usize,
    end: usize,
) -> Result<usize, Refusal>
    requires nodes_le_n { (nodes ≤ n) × (nodes ≤ most_nodes) × (n ≤ most_vertices) × (end ≤ n) × (0 < m) × (4 * (queue_at + 2 * m) ≤ length room.old) }
    requires standing { Standing (source s.now r) (words room.old) nodes n m end × Underway (source s.now r) (words room.old) nodes n end }
    ensures { Answered (source s.now r) (words room.old) (words room.new) nodes n end result }
{
    let mut last = end;
    let mut ids: usize = 0;
    while last + ids != n {
        let best = next_candidate(room, nodes, n, m);
        if le::word(room, 2 * best) == 0 {
            return Err(Refusal::NothingToChoose);
        }
        last = stage(room, s, r, nodes, n, m, best, last);
        ids += 1;
    }
    Ok(last)
}

// Whether a vertex may be chosen: it is a node and not kept. Nothing else says which ones may. Where no node is kept its flag is not looked at.
fn may_be_chosen(room: &[u8], v: usize, nodes: usize, kept: usize) -> bool
    requires nodes_le_most_nodes { (nodes ≤ most_nodes) × (4 * queue_at ≤ length room.now) }
    requires none_kept { kept ≡ 0 → NoneKept (words room.now) nodes }
    ensures { result ≡ may (words room.now) nodes v }
{
    if v >= nodes {
        return false;
    }
    if kept == 0 {
        return true;
    }
    le::word(room, tables::PICKED + v) != KEPT
}

// Vertex v is queued if it may be chosen and is live; answered is how many are queued then.
fn push_candidate(room: &mut [u8], nodes: usize, n: usize, kept: usize, v: usize, m: usize) -> usize
    requires v_lt_n { (v < n) × (nodes ≤ most_nodes) × (n ≤ most_vertices) × (m ≤ v) × (4 * (queue_at + 2 * (m + 1)) ≤ length room.old) }
    requires heap { Heap (keys_in (words room.old) queue_at m) m × AllSmall (degrees_in (words room.old) n) × (kept ≡ 0 → NoneKept (words room.old) nodes) }
    ensures { Entered (words room.old) (words room.new) nodes v m result }
{
    if !may_be_chosen(room, v, nodes, kept) {
        return m;
    }
    if le::word(room, 2 * v) == 0 {
        return m;
    }
    let k = key_now(room, v);
    queue::push(room, tables::QUEUE, m, k);
    m + 1
}

// The queue of the nodes that are live and may be chosen; answered is how many they are. So many are kept.
pub fn make_queue(room: &mut [u8], nodes: usize, n: usize, kept: usize) -> usize
    requires nodes_le_n { (nodes ≤ n) × (nodes ≤ most_nodes) × (n ≤ most_vertices) × (4 * (queue_at + 2 * nodes) ≤ length room.old) }
    requires all_small { AllSmall (degrees_in (words room.old) n) × (kept ≡ 0 → NoneKept (words room.old) nodes) }
    ensures { Made (words room.old) (words room.new) nodes n result }
{
    let mut m: usize = 0;
    for v in 0..nodes {
        m = push_candidate(room, nodes, n, kept, v, m);
    }
    m
}

// The incidence graph of the stored drawing, and all that may go freely at first gone; answered is how many vertices that are.
pub fn first_removal(room: &mut [u8], drawing: Drawing<'_>) -> usize
    requires room_removal_in_bounds { room_removal ≤ length room.old }
    ensures { First (source_in drawing.entry) (graph_in drawing.entry) (words room.new) drawing.entry.sizes.nodes (drawing.entry.sizes.nodes + drawing.entry.sizes.edges) result }
{
    let z = drawing.sizes;
    incidence::build(room, drawing);
    let n = z.nodes + z.edges;
    let end = removal::seed_all(room, n);
    removal::peel(room, drawing.src, drawing.body(), z.nodes, n, 0, end)
}

// Whether all vertices go freely.
fn is_acyclic(room: &mut [u8], drawing: Drawing<'_>) -> bool
    requires room_removal_in_bounds { room_removal ≤ length room.old }
    ensures { result ≡ no_loop (graph_in drawing.entry) }
{
    first_removal(room, drawing) == drawing.sizes.nodes + drawing.sizes.edges
}

// Whether the stored drawing has no directed cycle.
pub fn no_loop(src: &[u8], room: &mut [u8]) -> Result<Done, Refusal>
    ensures { told result ≡ outcome (no_loop_call src.now (length room.old)) }
{
    lists::work_room(room.len(), ROOM_NO_LOOP)?;
    let drawing = read::read(src)?;
    lists::unpaired(drawing.sizes)?;
    let acyclic = is_acyclic(room, drawing);
    Ok(Done {
        a: usize::from(acyclic),
        b: 0,
    })
}

// The flag of each of these nodes says that it is kept.
fn mark_kept(room: &mut [u8], kept: &[u8], r: Row, count: usize)
    requires { (room_choice ≤ length room.old) × Holds kept.now r count × Below most_nodes (span kept.now r 0 count) }
    ensures { words room.new ≡ kept_marked (words room.old) (span kept.now r 0 count) }
{
    for k in 0..count {
        let id = le::number(kept, r, k);
        le::set_word(room, tables::PICKED + id, KEPT);
    }
}

// The choice of a stored drawing that keeps the listed nodes: its nodes flagged in the room, and how many vertices went freely; or 16.
fn flag_nodes(
    room: &mut [u8],
    drawing: Drawing<'_>,
    kept: &[u8],
    count: usize,
) -> Result<usize, Refusal>
    requires room_choice_in_bounds { room_choice ≤ length room.old }
    requires kept_ids { Holds kept.now (row_at 0 drawing.sizes.width) count × Below drawing.sizes.nodes (span kept.now (row_at 0 drawing.sizes.width) 0 count) }
    ensures { ChosenIn (span kept.now (row_at 0 drawing.entry.sizes.width) 0 count) (graph_in drawing.entry) (words room.new) drawing.entry.sizes.nodes result }
{
    let z = drawing.sizes;
    let end = first_removal(room, drawing);
    let n = z.nodes + z.edges;
    le::clear_words(room, tables::PICKED, z.nodes);
    if end == n {
        return Ok(end);
    }
    mark_kept(
        room,
        kept,
        Row {
            at: 0,
            width: z.width,
        },
        count,
    );
    let m = make_queue(room, z.nodes, n, count);
    if m == 0 {
        return Err(Refusal::NothingToChoose);
    }
    greedy_feedback_nodes(room, drawing.src, drawing.body(), z.nodes, n, m, end)
}

// v in the list, if it is flagged; answered is where the next id goes.
fn put_flagged(list: &mut [u8], room: &[u8], r: Row, v: usize, k: usize) -> usize
    requires { (v < most_nodes) × (room_choice ≤ length room.now) × Holds list.old r (k + length (shown (is_flagged (words room.now)) v)) }
    ensures { (result ≡ k + length (shown (is_flagged (words room.now)) v)) × (list.new ≡ puts list.old r k (shown (is_flagged (words room.now)) v)) }
{
    if le::word(room, tables::PICKED + v) != CHOSEN {
        return k;
    }
    le::put_number(list, r, k, v);
    k + 1
}

// The flagged nodes, ascending, in a row.
fn put_chosen(list: &mut [u8], room: &[u8], r: Row, nodes: usize)
    requires { (nodes ≤ most_nodes) × (room_choice ≤ length room.now) × Holds list.old r (length (shown_below (is_flagged (words room.now)) nodes)) }
    ensures { list.new ≡ puts list.old r 0 (shown_below (is_flagged (words room.now)) nodes) }
{
    let mut k: usize = 0;
    for v in 0..nodes {
        k = put_flagged(list, room, r, v, k);
    }
}

// The flagged nodes as the answer: how many they are, and how many vertices went freely; or 10.
fn put_answer(list: &mut [u8], room: &[u8], z: Sizes, free: usize) -> Result<Done, Refusal>
    requires room_choice_in_bounds { (room_choice ≤ length room.now) × Wide z.width × (z.nodes ≤ most_nodes) × (z.nodes + z.edges ≤ most_vertices) }
    requires free_len { length (shown_below (is_flagged (words room.now)) z.nodes) + free ≡ z.nodes + z.edges }
    ensures { (f : Format) → f.width ≡ z.width → Gives (listing f (length list.old) (chosen_as (shown_below (is_flagged (words room.now)) z.nodes) free)) result list.old list.new }
{
    let ids = z.nodes + z.edges - free;
    if list.len() < ids * z.width {
        return Err(Refusal::NoRoom);
    }
    put_chosen(
        list,
        room,
        Row {
            at: 0,
            width: z.width,
        },
        z.nodes,
    );
    Ok(Done { a: ids, b: free })
}

// The choice of a stored drawing that keeps the listed nodes, as the answer of a call; or 16 or 10. Both calls end here, so that the one without a list does not have to read
// an empty one.
fn choose(
    drawing: Drawing<'_>,
    kept: &[u8],
    count: usize,
    list: &mut [u8],
    room: &mut [u8],
) -> Result<Done, Refusal>
    requires room_choice_in_bounds { room_choice ≤ length room.old }
    requires kept_ids { Holds kept.now (row_at 0 drawing.sizes.width) count × Below drawing.sizes.nodes (span kept.now (row_at 0 drawing.sizes.width) 0 count) }
    ensures { Gives (keeping_listed (span kept.now (row_at 0 drawing.entry.sizes.width) 0 count) (graph_in drawing.entry) (format_of drawing.entry.src.now) (length list.old)) result list.old list.new }
{
    let free = flag_nodes(room, drawing, kept, count)?;
    put_answer(list, room, drawing.sizes, free)
}

// The nodes that break every directed cycle of the stored drawing, chosen greedily among those that are not kept: how many ids stand in the list, and how many vertices
// went freely.
pub fn cycle_breaking_nodes_keeping(
    src: &[u8],
    kept: &[u8],
    list: &mut [u8],
    room: &mut [u8],
) -> Result<Done, Refusal>
    ensures { Gives (cycle_breaking_nodes_keeping_call src.now kept.now (length list.old) (length room.old)) result list.old list.new }
{
    lists::work_room(room.len(), ROOM_CYCLE_BREAKING_NODES_KEEPING)?;
    let drawing = read::read(src)?;
    let count = lists::id_list(kept, drawing.sizes.width, drawing.sizes.nodes)?;
    lists::unpaired(drawing.sizes)?;
    choose(drawing, kept, count, list, room)
}

// The same where no node is kept.
pub fn cycle_breaking_nodes(src: &[u8], list: &mut [u8], room: &mut [u8]) -> Result<Done, Refusal>
    ensures { Gives (cycle_breaking_nodes_call src.now (length list.old) (length room.old)) result list.old list.new }
{
    lists::work_room(room.len(), ROOM_CYCLE_BREAKING_NODES)?;
    let drawing = read::read(src)?;
    lists::unpaired(drawing.sizes)?;
    choose(drawing, &drawing.src[0..0], 0, list, room)
}

// How many nodes the choice of a stored drawing has, where no node is kept.
pub fn count_chosen(room: &mut [u8], drawing: Drawing<'_>) -> usize
    requires room_choice_in_bounds { room_choice ≤ length room.old }
    ensures { result ≡ length (chosen (graph_in drawing.entry)).ids }
{
    let Ok(free) = flag_nodes(room, drawing, &drawing.src[0..0], 0) else {
        return 0; // never: 16 is for kept nodes
    };
    drawing.sizes.nodes + drawing.sizes.edges - free
}
