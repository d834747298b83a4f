// One loop of a stored drawing, in what the first free removal leaves: from a node to its lowest edge and from an edge to its lowest target, by turns, until a vertex
// is met again. A slice is handed to a function by the address of a pointer and a length on the caller's stack, so that a call that hands one on can't be a jump. The
// two steps take references to slices instead, and mark what was visited in an array: their calls are jumps, and the deepest walk takes no more stack than the shortest.
#![tactic(auto)]

ghost use Rattle.std.specs.Prelude.{◌≡◌, ℕ, ◌+◌, ◌-◌, ◌*◌, ◌<◌, ◌≤◌, ◌∷◌, ltb, length};
ghost use Rattle.le.specs.Le.{words, Wide};
ghost use Rattle.le.specs.Rows.{Holds, row_at, span};
ghost use Rattle.graph.specs.Graph.{Format};
ghost use Rattle.choice.specs.Loop.{node_step, edge_step, walk_from, loop};
ghost use Rattle.choice.specs.Calls.{showing, find_loop_call};
ghost use Rattle.form.specs.Form.{Gives};
ghost use Rattle.form.specs.Drawn.{graph_in};
ghost use Rattle.tables.specs.Tables.{most_vertices, most_ports, waiting_at, room_removal};
ghost use Rattle.incidence.specs.Incidence.{source_in};
ghost use Rattle.removal.specs.Room.{source, part, start_of, count_of, room_list};
ghost use Rattle.cycle.specs.Begin.{First};
ghost use Rattle.loops.specs.Walk.{lower_live, lowest_live, vertices_of, next_in, FirstLive, AtNode, AtEdge, rest, Closes, Starting, Looping, LaidIn, loop_as};

use form::{Done, Drawing, Refusal};
use le::Row;

// The bytes of work room that the call needs.
pub const ROOM_FIND_LOOP: usize = tables::REMOVAL_BYTES;

// The lower of the lowest so far and v, if v is live.
fn lower_live(room: &[u8], best: usize, v: usize) -> usize
    requires { (best ≤ most_vertices) × (room_removal ≤ length room.now) }
    ensures { result ≡ lower_live (words room.now) best v }
{
    if best <= v {
        return best;
    }
    if le::word(room, 2 * v) == 0 {
        return best;
    }
    v
}

// The lowest live vertex in a list that stands in the room, as halves.
fn lowest_listed(room: &[u8], start: usize, count: usize) -> usize
    requires { (start + count ≤ most_ports) × (room_removal ≤ length room.now) }
    ensures { result ≡ lowest_live (words room.now) most_vertices (vertices_of (room_list (words room.now) start count)) }
{
    let mut best = tables::VERTICES;
    for j in 0..count {
        let y = le::word(room, tables::ENTRIES + start + j) as usize;
        best = lower_live(room, best, y / 2);
    }
    best
}

// The same in a list that stands in the form, as ids: in whatever order they stand there.
// One function over a closure would be no plainer: its contract would have to name the list that the closure reads.
fn lowest_formed(room: &[u8], s: &[u8], r: Row, start: usize, count: usize) -> usize
    requires { Holds s.now r (start + count) × (room_removal ≤ length room.now) }
    ensures { result ≡ lowest_live (words room.now) most_vertices (span s.now r start count) }
{
    let mut best = tables::VERTICES;
    for j in 0..count {
        let id = le::number(s, r, start + j);
        best = lower_live(room, best, id);
    }
    best
}

// The lowest live edge that node v enters.
fn lowest_edge(room: &[u8], v: usize) -> usize
    requires v_lt_most_vertices { (v < most_vertices) × (room_removal ≤ length room.now) }
    requires v_bound { start_of (words room.now) (2 * v) + count_of (words room.now) (2 * v) ≤ most_ports }
    ensures { let W = words room.now in result ≡ lowest_live W most_vertices (vertices_of (room_list W (start_of W (2 * v)) (count_of W (2 * v)))) }
{
    let start = le::word(room, tables::LISTS + 2 * (2 * v)) as usize;
    let count = le::word(room, tables::LISTS + 2 * (2 * v) + 1) as usize;
    lowest_listed(room, start, count)
}

// The lowest live target of edge e.
fn lowest_target(room: &[u8], s: &[u8], r: Row, e: usize) -> usize
    requires e_lt_most_vertices { (e < most_vertices) × (room_removal ≤ length room.now) }
    requires holds { Holds s.now r (start_of (words room.now) (2 * e) + count_of (words room.now) (2 * e)) }
    ensures { let W = words room.now in result ≡ lowest_live W most_vertices (span s.now r (start_of W (2 * e)) (count_of W (2 * e))) }
{
    let start = le::word(room, tables::LISTS + 2 * (2 * e)) as usize;
    let count = le::word(room, tables::LISTS + 2 * (2 * e) + 1) as usize;
    lowest_formed(room, s, r, start, count)
}

// From node v, which is visited as the k-th: so many vertices are unvisited then. Answered are the steps in all; a vertex is left by one step.
#[cycle(edge_step_node_step)]
fn node_step(
    room: &&[u8],
    s: &&[u8],
    at: usize,
    width: usize,
    seen: &mut [u8; tables::VERTICES],
    again: &mut usize,
    v: usize,
    k: usize,
    left: usize,
) -> usize
    requires room_removal_in_bounds { room_removal ≤ length room.now.now }
    requires at_node { AtNode (source s.now.now (row_at at width)) (words room.now.now) seen.old v k left }
    ensures { (u : AtNode (source s.now.now (row_at at width)) (words room.now.now) seen.old v k left)
        → Closes k (node_step left u.at.arcs u.at.core (rest u.at) v) result again.new }
{
    seen[v] = 1;
    let e = lowest_edge(*room, v);
    if seen[e] != 0 {
        *again = e;
        return k;
    }
    edge_step(room, s, at, width, seen, again, e, k + 1, left - 1)
}

// From edge e, likewise.
#[cycle(edge_step_node_step)]
fn edge_step(
    room: &&[u8],
    s: &&[u8],
    at: usize,
    width: usize,
    seen: &mut [u8; tables::VERTICES],
    again: &mut usize,
    e: usize,
    k: usize,
    left: usize,
) -> usize
    requires room_removal_in_bounds { room_removal ≤ length room.now.now }
    requires at_edge { AtEdge (source s.now.now (row_at at width)) (words room.now.now) seen.old e k left }
    ensures { (u : AtEdge (source s.now.now (row_at at width)) (words room.now.now) seen.old e k left)
        → Closes k (edge_step left u.at.arcs u.at.core (rest u.at) e) result again.new }
{
    seen[e] = 1;
    let v = lowest_target(*room, *s, Row { at, width }, e);
    if seen[v] != 0 {
        *again = v;
        return k;
    }
    node_step(room, s, at, width, seen, again, v, k + 1, left - 1)
}

// The lowest live node.
fn lowest_node(room: &[u8], nodes: usize) -> usize
    requires { (nodes ≤ most_vertices) × (room_removal ≤ length room.now) }
    ensures { FirstLive (words room.now) nodes result }
{
    for v in 0..nodes {
        if le::word(room, 2 * v) != 0 {
            return v;
        }
    }
    nodes
}

// How a walk ended: the steps taken, and the vertex that was met again.
#[derive(Clone, Copy)]
pub struct Closed {
    pub steps: usize,
    pub again: usize,
}

// The walk from the lowest live node; so many vertices are live.
fn walk(room: &[u8], s: &[u8], r: Row, nodes: usize, left: usize) -> Closed
    requires room_removal_in_bounds { room_removal ≤ length room.now }
    requires starting { Starting (source s.now r) (words room.now) nodes left }
    ensures { (u : Starting (source s.now r) (words room.now) nodes left)
        → Closes 1 (walk_from (left - 1) u.arcs (λ v. ltb v nodes) u.core) result.steps result.again }
{
    let mut seen = [0u8; tables::VERTICES];
    let mut again: usize = 0;
    let v = lowest_node(room, nodes);
    let at = r.at;
    let width = r.width;
    let steps = node_step(&room, &s, at, width, &mut seen, &mut again, v, 1, left - 1);
    Closed { steps, again }
}

// Where the walk goes from v.
fn onward(room: &[u8], s: &[u8], r: Row, nodes: usize, v: usize) -> usize
    requires v_lt_most_vertices { (v < most_vertices) × (room_removal ≤ length room.now) }
    requires v_bound { (v < nodes → start_of (words room.now) (2 * v) + count_of (words room.now) (2 * v) ≤ most_ports)
        × (nodes ≤ v → Holds s.now r (start_of (words room.now) (2 * v) + count_of (words room.now) (2 * v))) }
    ensures { result ≡ next_in (source s.now r) (words room.now) nodes v }
{
    if v < nodes {
        return lowest_edge(room, v);
    }
    lowest_target(room, s, r, v)
}

// The loop from the vertex that was met again, laid in the room where halves have waited; answered is how many vertices it has.
fn lay_loop(room: &mut [u8], s: &[u8], r: Row, nodes: usize, again: usize) -> usize
    requires room_removal_in_bounds { room_removal ≤ length room.old }
    requires looping { Looping (source s.now r) (words room.old) nodes again }
    ensures { (u : Looping (source s.now r) (words room.old) nodes again)
        → LaidIn (words room.new) (again ∷ u.others) result }
{
    let mut v = again;
    let mut count: usize = 0;
    loop {
        le::set_word(room, tables::WAITING + count, v as u32);
        count += 1;
        v = onward(room, s, r, nodes, v);
        if v == again {
            break;
        }
    }
    count
}

// The laid loop as the answer; or 10.
fn put_loop(
    list: &mut [u8],
    room: &[u8],
    width: usize,
    count: usize,
    steps: usize,
) -> Result<Done, Refusal>
    requires { Wide width × (count ≤ most_vertices) × (room_removal ≤ length room.now) }
    ensures { (f : Format) → f.width ≡ width → Gives (showing f (length list.old) (loop_as (part (words room.now) waiting_at count) steps)) result list.old list.new }
{
    if list.len() < count * width {
        return Err(Refusal::NoRoom);
    }
    le::copy_numbers(
        list,
        Row { at: 0, width },
        0,
        room,
        Row {
            at: 4 * tables::WAITING,
            width: 4,
        },
        0,
        count,
    );
    Ok(Done { a: count, b: steps })
}

// A loop of the stored drawing, of which so many vertices are left after the first free removal.
fn show_loop(
    list: &mut [u8],
    room: &mut [u8],
    drawing: Drawing<'_>,
    left: usize,
) -> Result<Done, Refusal>
    requires room_removal_in_bounds { (room_removal ≤ length room.old) × (0 < left) × (left ≤ drawing.sizes.nodes + drawing.sizes.edges) }
    requires first { First (source_in drawing) (graph_in drawing) (words room.old) drawing.sizes.nodes (drawing.sizes.nodes + drawing.sizes.edges) (drawing.sizes.nodes + drawing.sizes.edges - left) }
    ensures { (f : Format) → f.width ≡ drawing.entry.sizes.width → Gives (showing f (length list.old) (loop (graph_in drawing.entry))) result list.old list.new }
{
    let z = drawing.sizes;
    let r = drawing.body();
    let c = walk(room, drawing.src, r, z.nodes, left);
    let again = c.again;
    let count = lay_loop(room, drawing.src, r, z.nodes, again);
    put_loop(list, room, z.width, count, c.steps)
}

// One loop of the stored drawing: how many vertices stand in the list, and how many steps found it; none of either where there is no directed cycle.
pub fn find_loop(src: &[u8], list: &mut [u8], room: &mut [u8]) -> Result<Done, Refusal>
    ensures { Gives (find_loop_call src.now (length list.old) (length room.old)) result list.old list.new }
{
    lists::work_room(room.len(), ROOM_FIND_LOOP)?;
    let drawing = read::read(src)?;
    let z = drawing.sizes;
    lists::unpaired(z)?;
    let end = cycle::first_removal(room, drawing);
    let n = z.nodes + z.edges;
    if end == n {
        return Ok(Done { a: 0, b: 0 });
    }
    show_loop(list, room, drawing, n - end)
}
