// The choice of cycle-breaking nodes without a queue, a waiting list or lists of arcs: one byte for each vertex, the two degrees of each node and a hint for each edge are
// all that it keeps. Sweeps leave nothing loose; then one pass over the nodes finds the best.
#![tactic(auto)]

ghost use Rattle.std.specs.Prelude.{◌≡◌, ℕ, ◌+◌, ◌<◌, ◌≤◌, List, ltb, length};
ghost use Rattle.le.specs.Le.{Below, Wide};
ghost use Rattle.le.specs.Rows.{Holds, row_at, span, puts};
ghost use Rattle.graph.specs.Graph.{Format};
ghost use Rattle.form.specs.Form.{Gives};
ghost use Rattle.form.specs.Drawn.{graph_in};
ghost use Rattle.choice.specs.Arcs.{size};
ghost use Rattle.choice.specs.Passing.{shown, shown_below};
ghost use Rattle.choice.specs.Calls.{room_cycle_breaking_nodes_scanning, listing, cycle_breaking_nodes_scanning_call};
ghost use Rattle.marks.specs.Tables.{most_nodes, most_vertices, left};
ghost use Rattle.scan.specs.Stages.{Top, better_of, Counted, Prepared, ChosenIn, Begun, chosen_as, is_chosen};

use form::{Done, Drawing, Refusal, Sizes};
use le::Row;

// The bytes of work room that the call needs: the two tables, and then a byte for each edge.
pub const ROOM_CYCLE_BREAKING_NODES_SCANNING: usize = marks::HINTS + graph::MAX_EDGES;

// A node and its score.
#[derive(Clone, Copy)]
pub struct Best {
    pub node: usize,
    pub score: u32,
}

// The better of a node and another: the larger score, the earlier node on a tie.
fn better(b: Best, v: usize, score: u32) -> Best
    ensures { result ≡ better_of b v score (ltb b.score score) }
{
    if b.score < score {
        return Best { node: v, score };
    }
    b
}

// The best node that may be chosen; of score 0 where there is none.
fn best_node(room: &[u8], nodes: usize) -> Best
    requires { (nodes ≤ most_nodes) × (room_cycle_breaking_nodes_scanning ≤ length room.now) }
    ensures { Top room.now nodes result }
{
    let mut best = Best { node: 0, score: 0 };
    for v in 0..nodes {
        best = better(best, v, marks::worth(room, v));
    }
    best
}

// All stages, of which nothing is chosen yet and so many vertices went freely: what is chosen is marked, and answered is how many went freely; or the stages end with 16
// where nothing that remains may be chosen.
fn stages(room: &mut [u8], drawing: Drawing<'_>, free: usize) -> Result<usize, Refusal>
    requires { (room_cycle_breaking_nodes_scanning ≤ length room.old) × (free + size (left (drawing.sizes.nodes + drawing.sizes.edges) room.old) ≡ drawing.sizes.nodes + drawing.sizes.edges) }
    ensures { (kept : List ℕ) → Begun kept (graph_in drawing.entry) room.old free → ChosenIn kept (graph_in drawing.entry) room.new result }
{
    let z = drawing.sizes;
    let mut gone = free;
    let mut ids: usize = 0;
    while gone + ids != z.nodes + z.edges {
        let best = best_node(room, z.nodes);
        if best.score == 0 {
            return Err(Refusal::NothingToChoose);
        }
        let v = best.node;
        room[v] = marks::CHOSEN;
        ids += 1;
        gone += sweeps::settle(room, drawing);
    }
    Ok(gone)
}

// Counts the entries of all edges at their nodes.
fn count_edges(room: &mut [u8], drawing: Drawing<'_>)
    requires { (room_cycle_breaking_nodes_scanning ≤ length room.old) × Counted (graph_in drawing) room.old room.old 0 }
    ensures { Counted (graph_in drawing.entry) room.old room.new drawing.entry.sizes.edges }
{
    let r = drawing.body();
    let mut k: usize = 0;
    for i in 0..drawing.sizes.edges {
        let e = form::edge_at(drawing.src, r, k);
        marks::shift_each(room, drawing.src, r, e.first, e.sources, marks::ARC_OUT);
        marks::shift_each(
            room,
            drawing.src,
            r,
            e.first + e.sources,
            e.targets,
            marks::ARC_IN,
        );
        k = e.end;
    }
}

// The tables of a stored drawing of which nothing has gone yet and the listed nodes are kept.
fn prepare(room: &mut [u8], drawing: Drawing<'_>, kept: &[u8], count: usize)
    requires room_cycle_breaking_nodes_scanning_in_bounds { room_cycle_breaking_nodes_scanning ≤ length room.old }
    requires stored { Holds kept.now (row_at 0 drawing.sizes.width) count × Below drawing.sizes.nodes (span kept.now (row_at 0 drawing.sizes.width) 0 count) }
    ensures { Prepared (span kept.now (row_at 0 drawing.entry.sizes.width) 0 count) (graph_in drawing.entry) room.new }
{
    let z = drawing.sizes;
    le::clear(room, ROOM_CYCLE_BREAKING_NODES_SCANNING);
    marks::mark_all(room, z.nodes + z.edges);
    marks::mark_kept(
        room,
        kept,
        Row {
            at: 0,
            width: z.width,
        },
        count,
    );
    count_edges(room, drawing);
}

// The choice of a stored drawing that keeps the listed nodes: its nodes marked in the room, and how many vertices went freely; or 16.
fn mark_nodes(
    room: &mut [u8],
    drawing: Drawing<'_>,
    kept: &[u8],
    count: usize,
) -> Result<usize, Refusal>
    requires room_cycle_breaking_nodes_scanning_in_bounds { room_cycle_breaking_nodes_scanning ≤ length room.old }
    requires stored { Holds kept.now (row_at 0 drawing.sizes.width) count × Below drawing.sizes.nodes (span kept.now (row_at 0 drawing.sizes.width) 0 count) }
    ensures { ChosenIn (span kept.now (row_at 0 drawing.entry.sizes.width) 0 count) (graph_in drawing.entry) room.new result }
{
    prepare(room, drawing, kept, count);
    let gone = marks::test_all(room, drawing.sizes.nodes);
    let more = sweeps::settle(room, drawing);
    stages(room, drawing, gone + more)
}

// v in the list, if it was chosen; answered is where the next id goes.
fn put_shown(list: &mut [u8], room: &[u8], r: Row, v: usize, k: usize) -> usize
    requires { (v < most_nodes) × (most_nodes ≤ length room.now) × Holds list.old r (k + length (shown (is_chosen room.now) v)) }
    ensures { (result ≡ k + length (shown (is_chosen room.now) v)) × (list.new ≡ puts list.old r k (shown (is_chosen room.now) v)) }
{
    if room[v] != marks::CHOSEN {
        return k;
    }
    le::put_number(list, r, k, v);
    k + 1
}

// The chosen nodes, ascending, in a row.
fn put_chosen(list: &mut [u8], room: &[u8], r: Row, nodes: usize)
    requires { (nodes ≤ most_nodes) × (most_nodes ≤ length room.now) × Holds list.old r (length (shown_below (is_chosen room.now) nodes)) }
    ensures { list.new ≡ puts list.old r 0 (shown_below (is_chosen room.now) nodes) }
{
    let mut k: usize = 0;
    for v in 0..nodes {
        k = put_shown(list, room, r, v, k);
    }
}

// The chosen nodes as the answer: how many they are, and how many vertices went freely; or 10.
fn put_answer(list: &mut [u8], room: &[u8], z: Sizes, free: usize) -> Result<Done, Refusal>
    requires most_nodes_in_bounds { (most_nodes ≤ length room.now) × Wide z.width × (z.nodes ≤ most_nodes) × (z.nodes + z.edges ≤ most_vertices) }
    requires free_len { length (shown_below (is_chosen room.now) z.nodes) + free ≡ z.nodes + z.edges }
    ensures { (f : Format) → f.width ≡ z.width → Gives (listing f (length list.old) (chosen_as (shown_below (is_chosen room.now) z.nodes) free)) result list.old list.new }
{
    let ids = z.nodes + z.edges - free;
    if list.len() < ids * z.width {
        return Err(Refusal::NoRoom);
    }
    put_chosen(
        list,
        room,
        Row {
            at: 0,
            width: z.width,
        },
        z.nodes,
    );
    Ok(Done { a: ids, b: free })
}

// The nodes that break every directed cycle of the stored drawing, chosen greedily among those that are not kept: how many ids stand in the list, and how many vertices
// went freely. It answers just what the first engine does, in less room and more time.
pub fn cycle_breaking_nodes_scanning(
    src: &[u8],
    kept: &[u8],
    list: &mut [u8],
    room: &mut [u8],
) -> Result<Done, Refusal>
    ensures { Gives (cycle_breaking_nodes_scanning_call src.now kept.now (length list.old) (length room.old)) result list.old list.new }
{
    lists::work_room(room.len(), ROOM_CYCLE_BREAKING_NODES_SCANNING)?;
    let drawing = read::read(src)?;
    let z = drawing.sizes;
    let count = lists::id_list(kept, z.width, z.nodes)?;
    lists::unpaired(z)?;
    let free = mark_nodes(room, drawing, kept, count)?;
    put_answer(list, room, z, free)
}
