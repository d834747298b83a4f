// The sweeps of the scanning engine. A sweep passes over the edges: one without a source or without a target that remains goes, and at once those of its nodes that are
// loose then. A hint for each edge says where to look first. A sweep in which no node goes leaves nothing loose.
#![tactic(auto)]

ghost use Rattle.std.specs.Prelude.{◌≡◌, ◌+◌, ◌<◌, ◌≤◌, ◌^◌, true, false, ltb, length};
ghost use Rattle.le.specs.Le.{Below};
ghost use Rattle.le.specs.Rows.{Holds, span};
ghost use Rattle.form.specs.Drawn.{graph_in};
ghost use Rattle.choice.specs.Arcs.{bump};
ghost use Rattle.choice.specs.Calls.{room_cycle_breaking_nodes_scanning};
ghost use Rattle.marks.specs.Tables.{most_nodes, most_vertices, most_edges, Alike, some_left, must_go, visited, visited_of};
ghost use Rattle.sweeps.specs.Sweeps.{Swept, Rests};

use form::{Drawing, EdgeAt};
use le::Row;

// A list of nodes has at most so many blocks of equal length. A hint is the number of a block of the sources, and so many times that of one of the targets, in each of which a
// node was seen to remain.
const BLOCKS: usize = 16;

// Whether one remains of the nodes in block k of these, where there is such a block.
fn block_left(room: &[u8], src: &[u8], r: Row, first: usize, count: usize, k: usize) -> bool
    requires { Holds src.now r (first + count) × Below most_nodes (span src.now r first count) × (room_cycle_breaking_nodes_scanning ≤ length room.now) × (k < 16) }
    ensures { result ≡ true → some_left room.now (span src.now r first count) ≡ true }
{
    let size = count / BLOCKS + 1;
    let start = k * size;
    if count <= start {
        return false;
    }
    marks::some_left(room, src, r, first + start, size.min(count - start))
}

// Whether the edge that is vertex v is seen at once to stay: it has gone before, or a node remains in each of the two blocks that the hint names. The hint may be any number.
fn is_held(room: &[u8], src: &[u8], r: Row, e: EdgeAt, v: usize, hint: u8) -> bool
    requires holds { Holds src.now r (e.first + e.sources + e.targets) × (v < most_vertices) × (room_cycle_breaking_nodes_scanning ≤ length room.now) }
    requires below { Below most_nodes (span src.now r e.first e.sources) × Below most_nodes (span src.now r (e.first + e.sources) e.targets) }
    ensures { result ≡ true → must_go (span src.now r e.first e.sources) (span src.now r (e.first + e.sources) e.targets) v room.now ≡ false }
{
    if room[v] % 2 != 1 {
        return true;
    }
    let h = hint as usize;
    block_left(room, src, r, e.first, e.sources, h % BLOCKS)
        && block_left(room, src, r, e.first + e.sources, e.targets, h / BLOCKS)
}

// The number of the first block in which one of these nodes remains; 0 where there is none.
fn seek(room: &[u8], src: &[u8], r: Row, first: usize, count: usize) -> usize
    requires { Holds src.now r (first + count) × Below most_nodes (span src.now r first count) × (room_cycle_breaking_nodes_scanning ≤ length room.now) }
    ensures { result < 16 }
{
    (0..BLOCKS)
        .find(|k| block_left(room, src, r, first, count, *k))
        .unwrap_or(0)
}

// Writes the hint of edge i.
fn hold(room: &mut [u8], src: &[u8], r: Row, e: EdgeAt, i: usize)
    requires holds { Holds src.now r (e.first + e.sources + e.targets) × (i < most_edges) × (room_cycle_breaking_nodes_scanning ≤ length room.old) }
    requires below { Below most_nodes (span src.now r e.first e.sources) × Below most_nodes (span src.now r (e.first + e.sources) e.targets) }
    ensures { Alike room.old room.new }
{
    let s = seek(room, src, r, e.first, e.sources);
    let t = seek(room, src, r, e.first + e.sources, e.targets);
    room[marks::HINTS + i] = (s + BLOCKS * t) as u8;
}

// The same as `visit` of edge i, which is vertex v: its lists are looked through only where its hint does not hold it, and if it stays then it gets another hint.
fn visit_held(room: &mut [u8], src: &[u8], r: Row, e: EdgeAt, v: usize, i: usize) -> usize
    requires holds { Holds src.now r (e.first + e.sources + e.targets) × (v < most_vertices) × (i < most_edges) × (room_cycle_breaking_nodes_scanning ≤ length room.old) }
    requires below { Below most_nodes (span src.now r e.first e.sources) × Below most_nodes (span src.now r (e.first + e.sources) e.targets) }
    ensures value { result ≡ visited_of (span src.now r e.first e.sources) (span src.now r (e.first + e.sources) e.targets) v room.old }
    ensures alike { Alike (visited (span src.now r e.first e.sources) (span src.now r (e.first + e.sources) e.targets) v room.old) room.new }
{
    if is_held(room, src, r, e, v, room[marks::HINTS + i]) {
        return 0;
    }
    let k = marks::visit(room, src, r, e, v);
    if k != 0 {
        return k;
    }
    hold(room, src, r, e, i);
    0
}

// What a sweep took away: so many vertices, and so many of them edges.
#[derive(Clone, Copy)]
pub struct Gone {
    pub all: usize,
    pub edges: usize,
}

impl Gone {
    // With k vertices more, the first of which is an edge.
    fn with(self, k: usize) -> Gone
        requires { (self.all + k < 2 ^ 32) × (self.edges < 2 ^ 32) }
        ensures { (result.all ≡ self.all + k) × (result.edges ≡ self.edges + bump (ltb 0 k) 0) }
    {
        if k == 0 {
            return self;
        }
        Gone {
            all: self.all + k,
            edges: self.edges + 1,
        }
    }
}

// One sweep over the edges.
fn sweep(room: &mut [u8], drawing: Drawing<'_>) -> Gone
    requires { room_cycle_breaking_nodes_scanning ≤ length room.old }
    ensures { Swept (graph_in drawing.entry) room.old room.new drawing.entry.sizes.edges result.all result.edges }
{
    let r = drawing.body();
    let mut k: usize = 0;
    let mut gone = Gone { all: 0, edges: 0 };
    for i in 0..drawing.sizes.edges {
        let e = form::edge_at(drawing.src, r, k);
        gone = gone.with(visit_held(room, drawing.src, r, e, drawing.sizes.nodes + i, i));
        k = e.end;
    }
    gone
}

// Sweeps until no node goes in one: only a node that goes can make an edge loose. Answered is how many vertices went.
pub fn settle(room: &mut [u8], drawing: Drawing<'_>) -> usize
    requires { room_cycle_breaking_nodes_scanning ≤ length room.old }
    ensures { Rests (graph_in drawing.entry) room.old room.new result }
{
    let mut gone: usize = 0;
    loop {
        let swept = sweep(room, drawing);
        gone += swept.all;
        if swept.all == swept.edges {
            break;
        }
    }
    gone
}
