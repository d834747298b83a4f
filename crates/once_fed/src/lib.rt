// The check that needs no search: once-fed, by the rule of T-09.
#![tactic(auto)]

ghost use Rattle.std.specs.Prelude.{◌≡◌, cond, not, ◌+◌, ◌/◌, ◌%◌, ◌<◌, ◌≤◌, eqb, length, get_or, set};
ghost use Rattle.le.specs.Le.{Below};
ghost use Rattle.le.specs.Rows.{Holds, span};
ghost use Rattle.graph.specs.Graph.{edge_sources, edge_targets};
ghost use Rattle.graph.specs.Checks.{monogamous};
ghost use Rattle.graph.specs.Calls.{once_fed_call};
ghost use Rattle.form.specs.Form.{told, outcome};
ghost use Rattle.form.specs.Drawn.{graph_in};
ghost use Rattle.once_fed.specs.Marked.{added, Fared, Marks, MarksBoth, AllMarked};

use form::{Done, Drawing, Refusal};
use le::Row;

// The work room of the once-fed check: a byte for each node.
pub const ROOM_ONCE_FED: usize = graph::MAX_NODES;

// How an entry marks its node: as used, where it is a source of an edge or a global target, or as fed, where it is a target of an edge or a global source.
#[derive(Clone, Copy)]
enum Way {
    Used = 1,
    Fed = 2,
}

impl Way {
    // What it adds to the byte of a node.
    fn byte(self) -> u8
        ensures { result ≡ added self }
    {
        self as u8
    }
}

// The byte of a node that is marked in both ways.
const BOTH: u8 = 3;

// Marks a node in one way. No, and nothing is written, where it was marked so before.
fn mark(room: &mut [u8], id: usize, way: Way) -> bool
    requires { id < length room.old }
    ensures value { result ≡ not (eqb (get_or room.old id 0 / added way % 2) 1) }
    ensures room_after { room.new ≡ cond result (set room.old id (get_or room.old id 0 + added way)) room.old }
{
    let way = way.byte();
    let marks = room[id];
    if marks / way % 2 == 1 {
        return false; // a second time
    }
    room[id] = marks + way;
    true
}

// Marks the nodes of n entries of a row, from number k on, one after the other. No as soon as one was marked in this way before.
fn mark_list(
    src: &[u8],
    r: Row,
    k: usize,
    n: usize,
    nodes: usize,
    room: &mut [u8],
    way: Way,
) -> bool
    requires { Holds src.now r (k + n) × Below nodes (span src.now r k n) × (nodes ≤ length room.old) }
    ensures { Marks room.old room.new nodes result (added way) (span src.now r k n) }
{
    for i in 0..n {
        let id = le::number(src, r, k + i);
        if !mark(room, id, way) {
            return false;
        }
    }
    true
}

// Marks the nodes of an edge, whose n sources stand from number k on and its m targets after them. No as soon as one was marked so before.
fn mark_edge(
    src: &[u8],
    r: Row,
    k: usize,
    n: usize,
    m: usize,
    nodes: usize,
    room: &mut [u8],
) -> bool
    requires holds { Holds src.now r (k + n + m) × (nodes ≤ length room.old) }
    requires below { Below nodes (span src.now r k n) × Below nodes (span src.now r (k + n) m) }
    ensures { MarksBoth room.old room.new nodes result 1 (span src.now r k n) (span src.now r (k + n) m) }
{
    mark_list(src, r, k, n, nodes, room, Way::Used)
        && mark_list(src, r, k + n, m, nodes, room, Way::Fed)
}

// Marks the nodes of all edges in a cleared table. No as soon as one was marked twice in one way.
fn mark_edges(drawing: Drawing<'_>, room: &mut [u8]) -> bool
    requires { drawing.sizes.nodes ≤ length room.old }
    ensures { Fared result room.new drawing.entry.sizes.nodes 2 (edge_targets (graph_in drawing.entry).edges) (edge_sources (graph_in drawing.entry).edges) }
{
    let src = drawing.src;
    let z = drawing.sizes;
    le::clear(room, z.nodes);
    let row = drawing.body();
    let mut k: usize = 0;
    for i in 0..z.edges {
        let e = form::edge_at(src, row, k);
        if !mark_edge(src, row, e.first, e.sources, e.targets, z.nodes, room) {
            return false;
        }
        k = e.end;
    }
    true
}

// Marks the nodes of the global lists: a global source feeds, and a global target uses. No as soon as one was marked so before.
fn mark_lists(drawing: Drawing<'_>, room: &mut [u8]) -> bool
    requires { drawing.sizes.nodes ≤ length room.old }
    ensures { MarksBoth room.old room.new drawing.entry.sizes.nodes result 2 (graph_in drawing.entry).sources (graph_in drawing.entry).targets }
{
    let src = drawing.src;
    let z = drawing.sizes;
    let row = drawing.body();
    let sources = drawing.lists();
    let targets = sources + z.sources;
    mark_list(src, row, sources, z.sources, z.nodes, room, Way::Fed)
        && mark_list(src, row, targets, z.targets, z.nodes, room, Way::Used)
}

// Whether every node is marked in both ways.
fn all_marked(room: &[u8], nodes: usize) -> bool
    requires { nodes ≤ length room.now }
    ensures { AllMarked result room.now nodes }
{
    room[..nodes].iter().all(|&marks| marks == BOTH)
}

// Whether each node is fed exactly once and used exactly once: none is marked twice in one way, by edges or global lists, and each is marked in both.
fn each_once(drawing: Drawing<'_>, room: &mut [u8]) -> bool
    requires { drawing.sizes.nodes ≤ length room.old }
    ensures { result ≡ monogamous (graph_in drawing.entry) }
{
    mark_edges(drawing, room) && mark_lists(drawing, room) && all_marked(room, drawing.sizes.nodes)
}

// Whether each node is fed exactly once, counting edge targets and global sources, and used exactly once, counting edge sources and global targets.
pub fn once_fed(src: &[u8], room: &mut [u8]) -> Result<Done, Refusal>
    ensures { told result ≡ outcome (once_fed_call src.now (length room.old)) }
{
    lists::work_room(room.len(), ROOM_ONCE_FED)?;
    let drawing = read::read(src)?;
    lists::unpaired(drawing.sizes)?;
    let yes = each_once(drawing, room);
    Ok(Done {
        a: usize::from(yes),
        b: 0,
    })
}
