// The ids that go are marked in the work room, one byte for each; and what stays is counted: the sizes of the graph without its marked edges or nodes.
#![tactic(auto)]

ghost use Rattle.std.specs.Prelude.{◌≡◌, cond, ℕ, ◌+◌, ◌*◌, ◌<◌, ◌≤◌, map as each, length};
ghost use Rattle.le.specs.Le.{Below};
ghost use Rattle.le.specs.Rows.{Holds, span};
ghost use Rattle.graph.specs.Lists.{among, paired};
ghost use Rattle.graph.specs.Graph.{edge_entries};
ghost use Rattle.graph.specs.Versions.{fitting};
ghost use Rattle.graph.specs.Delete.{remaining, new_id, renamed, renamed_edge, renamed_pairs, without_nodes};
ghost use Rattle.form.specs.Form.{sizes_of};
ghost use Rattle.form.specs.Drawn.{graph_in};
ghost use Rattle.gone.specs.Marks.{marked, unmarked_edges};

use form::{Drawing, Sizes};
use le::Row;

// Of the first `count` ids, marks those in a list of n, and no others. Repeated ids count once.
pub fn mark(room: &mut [u8], count: usize, ids: &[u8], r: Row, n: usize)
    requires { (count ≤ length room.old) × Holds ids.now r n × Below count (span ids.now r 0 n) }
    ensures { marked room.new count ≡ among (span ids.now r 0 n) }
{
    le::clear(room, count);
    for k in 0..n {
        let id = le::number(ids, r, k);
        room[id] = 1;
    }
}

// A number if the id stays, else 0.
pub fn if_stays(room: &[u8], id: usize, x: usize) -> usize
    requires { id < length room.now }
    ensures { (result ≤ x) × ((n : ℕ) → id < n → result ≡ cond (marked room.now n id) 0 x) }
{
    if room[id] == 0 { x } else { 0 }
}

// How many of the first n ids stay.
fn left(room: &[u8], n: usize) -> usize
    requires { n ≤ length room.now }
    ensures { result ≡ new_id (marked room.now n) n }
{
    let mut stay: usize = 0;
    for mark in &room[..n] {
        stay += usize::from(*mark == 0);
    }
    stay
}

// How many ports the unmarked edges have.
fn ports_of_left(drawing: Drawing<'_>, room: &[u8]) -> usize
    requires { drawing.sizes.edges ≤ length room.now }
    ensures { result ≡ length (edge_entries (remaining (marked room.now drawing.entry.sizes.edges) 0 (graph_in drawing.entry).edges)) }
{
    let body = drawing.body();
    let mut k: usize = 0;
    let mut ports: usize = 0;
    for i in 0..drawing.sizes.edges {
        let e = form::edge_at(drawing.src, body, k);
        ports += if_stays(room, i, e.sources + e.targets);
        k = e.end;
    }
    ports
}

// The sizes of the graph without its marked edges.
pub fn without_edges(drawing: Drawing<'_>, room: &[u8]) -> Sizes
    requires { drawing.sizes.edges ≤ length room.now }
    ensures { result ≡ sizes_of (fitting (unmarked_edges room.now drawing.entry.sizes.edges (graph_in drawing.entry))) (unmarked_edges room.now drawing.entry.sizes.edges (graph_in drawing.entry)) }
{
    let z = drawing.sizes;
    write::sized(Sizes {
        edges: left(room, z.edges),
        ports: ports_of_left(drawing, room),
        ..z
    })
}

// How many of n ids from number k of a row on stay.
// A `for`: of a chain, by `filter` and `count`, it was not proved that its closure may read each number.
fn ids_left(src: &[u8], r: Row, k: usize, n: usize, room: &[u8]) -> usize
    requires { Holds src.now r (k + n) × Below (length room.now) (span src.now r k n) }
    ensures { (result ≤ n) × ((m : ℕ) → Below m (span src.now r k n) → result ≡ length (renamed (marked room.now m) (span src.now r k n))) }
{
    let mut stay: usize = 0;
    for i in 0..n {
        let id = le::number(src, r, k + i);
        stay += if_stays(room, id, 1);
    }
    stay
}

// How many ports of the edges stay.
fn ports_left(drawing: Drawing<'_>, room: &[u8]) -> usize
    requires { drawing.sizes.nodes ≤ length room.now }
    ensures { result ≡ length (edge_entries (each (renamed_edge (marked room.now drawing.entry.sizes.nodes)) (graph_in drawing.entry).edges)) }
{
    let body = drawing.body();
    let mut k: usize = 0;
    let mut ports: usize = 0;
    for i in 0..drawing.sizes.edges {
        let e = form::edge_at(drawing.src, body, k);
        ports += ids_left(drawing.src, body, e.first, e.sources + e.targets, room);
        k = e.end;
    }
    ports
}

// 1 if both ends of the pair at number k stay, else 0.
fn pair_left(src: &[u8], r: Row, k: usize, room: &[u8]) -> usize
    requires { Holds src.now r (k + 2) × Below (length room.now) (span src.now r k 2) }
    ensures { (result ≤ 1) × ((m : ℕ) → Below m (span src.now r k 2) → result ≡ length (renamed_pairs (marked room.now m) (paired (span src.now r k 2)))) }
{
    let a = le::number(src, r, k);
    let b = le::number(src, r, k + 1);
    if_stays(room, a, if_stays(room, b, 1))
}

// How many of the n pairs from number k of a row on stay.
// A `for`, as in `ids_left`: a chain would read the numbers in a closure too.
fn pairs_left(src: &[u8], r: Row, k: usize, n: usize, room: &[u8]) -> usize
    requires { Holds src.now r (k + 2 * n) × Below (length room.now) (span src.now r k (2 * n)) }
    ensures { (m : ℕ) → Below m (span src.now r k (2 * n)) → result ≡ length (renamed_pairs (marked room.now m) (paired (span src.now r k (2 * n)))) }
{
    let mut stay: usize = 0;
    for i in 0..n {
        stay += pair_left(src, r, k + 2 * i, room);
    }
    stay
}

// The sizes of the graph without its marked nodes.
pub fn without_nodes(drawing: Drawing<'_>, room: &[u8]) -> Sizes
    requires { drawing.sizes.nodes ≤ length room.now }
    ensures { result ≡ sizes_of (fitting (without_nodes (marked room.now drawing.entry.sizes.nodes) (graph_in drawing.entry))) (without_nodes (marked room.now drawing.entry.sizes.nodes) (graph_in drawing.entry)) }
{
    let z = drawing.sizes;
    let src = drawing.src;
    let body = drawing.body();
    let lists = drawing.lists();
    let sources = ids_left(src, body, lists, z.sources, room);
    let targets = ids_left(src, body, lists + z.sources, z.targets, room);
    let pairs = pairs_left(src, body, lists + z.sources + z.targets, z.pairs, room);
    write::sized(Sizes {
        nodes: left(room, z.nodes),
        ports: ports_left(drawing, room),
        sources,
        targets,
        pairs,
        ..z
    })
}
