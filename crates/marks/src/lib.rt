// The two tables of the scanning engine and the hints behind them, in a lent room, and its small steps on them: a byte for each vertex and the two degrees of each node.
// An edge has no degrees: its entries that remain are looked up in the form. One without a source or without a target that remains goes, and at once those of its nodes
// that are loose then.
#![tactic(auto)]

ghost use Rattle.std.specs.Prelude.{◌≡◌, ◌+◌, ◌<◌, ◌≤◌, not, length, replicate};
ghost use Rattle.std.proofs.lemmas.List.Edits.{sets};
ghost use Rattle.le.specs.Le.{Below};
ghost use Rattle.le.specs.Rows.{Holds, span};
ghost use Rattle.choice.specs.Arcs.{bump};
ghost use Rattle.choice.specs.Calls.{room_cycle_breaking_nodes_scanning};
ghost use Rattle.marks.specs.Tables.{most_nodes, most_vertices, some_left, kept_in, nought, shifted, shifted_all, loose, tested, tested_all, went_of, up_to, lowered, must_go, visited, visited_of, worth_in};

use form::EdgeAt;
use le::Row;

// A byte for each vertex.
const MARKS: usize = graph::MAX_NODES + graph::MAX_EDGES;

// The word of node 0.
const DEGREES: usize = MARKS / 4;

// Behind a word for each node, the hint of edge 0.
pub const HINTS: usize = MARKS + 4 * graph::MAX_NODES;

// What an entry adds to its node's word: an arc in or an arc out, and one less of each, modulo 2^32.
pub const ARC_IN: u32 = 1;

pub const ARC_OUT: u32 = 65536;

const LESS_IN: u32 = 4294967295;

const LESS_OUT: u32 = 4294901760;

// The mark of a vertex that has gone, of one that remains, of a node that was chosen, and of one that remains and is kept. What remains is odd. They are
// constants and no enum, since they are bytes in lent memory.
const GONE: u8 = 0;

const REMAINS: u8 = 1;

pub const CHOSEN: u8 = 2;

const KEPT: u8 = 3;

// Adds to the word of node v.
fn shift(room: &mut [u8], v: usize, delta: u32)
    requires { (v < most_nodes) × (room_cycle_breaking_nodes_scanning ≤ length room.old) }
    ensures { room.new ≡ shifted delta v room.old }
{
    let w = le::word(room, DEGREES + v);
    le::put4(room, 4 * (DEGREES + v), w.wrapping_add(delta));
}

// Adds to the word of each of these nodes.
pub fn shift_each(room: &mut [u8], src: &[u8], r: Row, first: usize, count: usize, delta: u32)
    requires { Holds src.now r (first + count) × Below most_nodes (span src.now r first count) × (room_cycle_breaking_nodes_scanning ≤ length room.old) }
    ensures { room.new ≡ shifted_all delta (span src.now r first count) room.old }
{
    for j in 0..count {
        let id = le::number(src, r, first + j);
        shift(room, id, delta);
    }
}

// Whether one of the two numbers in a word is 0.
fn is_nought(w: u32) -> bool
    ensures { result ≡ nought w }
{
    w % 65536 == 0 || w / 65536 == 0
}

// Whether node v remains and has no arc in or no arc out.
fn is_loose(room: &[u8], v: usize) -> bool
    requires { (v < most_nodes) × (room_cycle_breaking_nodes_scanning ≤ length room.now) }
    ensures { result ≡ loose room.now v }
{
    room[v] % 2 == 1 && is_nought(le::word(room, DEGREES + v))
}

// Node v goes if it is loose; answered is how many went.
fn test(room: &mut [u8], v: usize) -> usize
    requires { (v < most_nodes) × (room_cycle_breaking_nodes_scanning ≤ length room.old) }
    ensures { (result ≡ bump (loose room.old v) 0) × (room.new ≡ tested v room.old) }
{
    if !is_loose(room, v) {
        return 0;
    }
    room[v] = GONE;
    1
}

// Each of these nodes goes if it is loose; answered is how many went.
fn test_each(room: &mut [u8], src: &[u8], r: Row, first: usize, count: usize) -> usize
    requires { Holds src.now r (first + count) × Below most_nodes (span src.now r first count) × (room_cycle_breaking_nodes_scanning ≤ length room.old) }
    ensures { (result ≡ went_of (span src.now r first count) room.old) × (room.new ≡ tested_all (span src.now r first count) room.old) × (result ≤ count) }
{
    let mut gone: usize = 0;
    for j in 0..count {
        let id = le::number(src, r, first + j);
        gone += test(room, id);
    }
    gone
}

// The same of all nodes.
pub fn test_all(room: &mut [u8], nodes: usize) -> usize
    requires { (nodes ≤ most_nodes) × (room_cycle_breaking_nodes_scanning ≤ length room.old) }
    ensures { (result ≡ went_of (up_to nodes) room.old) × (room.new ≡ tested_all (up_to nodes) room.old) }
{
    let mut gone: usize = 0;
    for v in 0..nodes {
        gone += test(room, v);
    }
    gone
}

// Whether one of these nodes remains.
pub fn some_left(room: &[u8], src: &[u8], r: Row, first: usize, count: usize) -> bool
    requires { Holds src.now r (first + count) × Below most_nodes (span src.now r first count) × (room_cycle_breaking_nodes_scanning ≤ length room.now) }
    ensures { result ≡ some_left room.now (span src.now r first count) }
{
    for j in 0..count {
        let id = le::number(src, r, first + j);
        if room[id] % 2 == 1 {
            return true;
        }
    }
    false
}

// The edge that is vertex v goes, each of its entries loses an arc, and those of its nodes that are loose then go too; answered is how many vertices went.
fn take_edge(room: &mut [u8], src: &[u8], r: Row, e: EdgeAt, v: usize) -> usize
    requires holds { Holds src.now r (e.first + e.sources + e.targets) × (v < most_vertices) × (room_cycle_breaking_nodes_scanning ≤ length room.old) }
    requires below { Below most_nodes (span src.now r e.first e.sources) × Below most_nodes (span src.now r (e.first + e.sources) e.targets) }
    ensures value { result ≡ 1 + went_of (span src.now r e.first (e.sources + e.targets)) (lowered (span src.now r e.first e.sources) (span src.now r (e.first + e.sources) e.targets) v room.old) }
    ensures room_after { room.new ≡ tested_all (span src.now r e.first (e.sources + e.targets)) (lowered (span src.now r e.first e.sources) (span src.now r (e.first + e.sources) e.targets) v room.old) }
{
    room[v] = GONE;
    shift_each(room, src, r, e.first, e.sources, LESS_OUT);
    shift_each(room, src, r, e.first + e.sources, e.targets, LESS_IN);
    1 + test_each(room, src, r, e.first, e.sources + e.targets)
}

// Whether the edge that is vertex v stays: it has gone before, or a source and a target of it remain.
fn stays(room: &[u8], src: &[u8], r: Row, e: EdgeAt, v: usize) -> bool
    requires holds { Holds src.now r (e.first + e.sources + e.targets) × (v < most_vertices) × (room_cycle_breaking_nodes_scanning ≤ length room.now) }
    requires below { Below most_nodes (span src.now r e.first e.sources) × Below most_nodes (span src.now r (e.first + e.sources) e.targets) }
    ensures { result ≡ not (must_go (span src.now r e.first e.sources) (span src.now r (e.first + e.sources) e.targets) v room.now) }
{
    if room[v] % 2 != 1 {
        return true;
    }
    some_left(room, src, r, e.first, e.sources)
        && some_left(room, src, r, e.first + e.sources, e.targets)
}

// The edge that is vertex v goes if it must; answered is how many vertices went.
pub fn visit(room: &mut [u8], src: &[u8], r: Row, e: EdgeAt, v: usize) -> usize
    requires holds { Holds src.now r (e.first + e.sources + e.targets) × (v < most_vertices) × (room_cycle_breaking_nodes_scanning ≤ length room.old) }
    requires below { Below most_nodes (span src.now r e.first e.sources) × Below most_nodes (span src.now r (e.first + e.sources) e.targets) }
    ensures value { result ≡ visited_of (span src.now r e.first e.sources) (span src.now r (e.first + e.sources) e.targets) v room.old }
    ensures room_after { room.new ≡ visited (span src.now r e.first e.sources) (span src.now r (e.first + e.sources) e.targets) v room.old }
{
    if stays(room, src, r, e, v) {
        return 0;
    }
    take_edge(room, src, r, e, v)
}

// Arcs in times arcs out of a node that may be chosen, and nothing for another.
pub fn worth(room: &[u8], v: usize) -> u32
    requires { (v < most_nodes) × (room_cycle_breaking_nodes_scanning ≤ length room.now) }
    ensures { result ≡ worth_in room.now v }
{
    let w = le::word(room, DEGREES + v);
    let score = w % 65536 * (w / 65536);
    if room[v] == REMAINS { score } else { 0 }
}

// The first n vertices remain.
pub fn mark_all(room: &mut [u8], n: usize)
    requires { n ≤ length room.old }
    ensures { room.new ≡ sets room.old 0 (replicate n 1) }
{
    room[..n].fill(REMAINS);
}

// These nodes are kept.
pub fn mark_kept(room: &mut [u8], kept: &[u8], r: Row, count: usize)
    requires { Holds kept.now r count × Below most_nodes (span kept.now r 0 count) × (most_nodes ≤ length room.old) }
    ensures { room.new ≡ kept_in room.old (span kept.now r 0 count) }
{
    for k in 0..count {
        let id = le::number(kept, r, k);
        room[id] = KEPT;
    }
}
