// 02, T-01: the least member of each node's class and the number of the class, found in the first words of the lent work room. Near-linear: the greater
// root is hung under the lesser one, and each search halves the path that it takes.
#![tactic(auto)]

ghost use Rattle.std.specs.Prelude.{◌≡◌, cond, List, eqb, ℕ, ◌+◌, ◌*◌, ◌<◌, ◌≤◌, length, get_or, set};
ghost use Rattle.le.specs.Le.{Below, words};
ghost use Rattle.le.specs.Rows.{Holds, entry, span};
ghost use Rattle.graph.specs.Lists.{range, same, paired};
ghost use Rattle.graph.specs.Merge.{leaders, looked, absorbed, numbered};
ghost use Rattle.graph.specs.Delete.{new_id};
ghost use Rattle.form.specs.Drawn.{graph_in};
ghost use Rattle.classes.specs.Forest.{Falls, Forest, Tabled, Found, Joins, Names, number_of, MapMade};

use form::{Drawing, Refusal};
use le::Row;

// The least member of v's class; every other node of the path to it is passed by from now on.
fn find(room: &mut [u8], n: usize, v: usize) -> usize
    requires n_in_bounds { (4 * n ≤ length room.old) × (v < n) }
    requires falls { Falls n (words room.old) }
    ensures { Found n (words room.old) (words room.new) v result }
{
    let mut x = v;
    let mut p = le::word(room, x) as usize;
    while p != x {
        let q = le::word(room, p);
        le::set_word(room, x, q);
        x = q as usize;
        p = le::word(room, x) as usize;
    }
    x
}

// The classes of v and w become one.
fn join(room: &mut [u8], n: usize, v: usize, w: usize)
    requires n_in_bounds { (4 * n ≤ length room.old) × (v < n) × (w < n) × (n < 4294967296) }
    requires falls { Falls n (words room.old) }
    ensures { Joins n (words room.old) (words room.new) v w }
{
    let r = find(room, n, v);
    let s = find(room, n, w);
    if r < s {
        le::set_word(room, s, r as u32);
        return;
    }
    if s < r {
        le::set_word(room, r, s as u32);
    }
}

// Each node is a class of its own.
fn start(room: &mut [u8], n: usize)
    requires { (4 * n ≤ length room.old) × (n < 4294967296) }
    ensures { Forest n (range 0 n) (words room.new) }
{
    for k in 0..n {
        le::set_word(room, k, k as u32);
    }
}

// The m pairs that stand from number k of a row on are joined, the last one first.
fn join_all(room: &mut [u8], n: usize, src: &[u8], r: Row, k: usize, m: usize)
    requires n_in_bounds { (4 * n ≤ length room.old) × (n < 4294967296) × Holds src.now r (k + 2 * m) × Below n (span src.now r k (2 * m)) }
    requires forest { Forest n (range 0 n) (words room.old) }
    ensures { Forest n (leaders n (paired (span src.now r k (2 * m)))) (words room.new) }
{
    for j in (0..m).rev() {
        let at = k + 2 * j;
        let v = le::number(src, r, at);
        let w = le::number(src, r, at + 1);
        join(room, n, v, w);
    }
}

// The word of each node becomes the least member of its class: in one pass, since the words below are least members already.
fn flatten(room: &mut [u8], n: usize)
    requires n_in_bounds { 4 * n ≤ length room.old }
    requires falls { Falls n (words room.old) }
    ensures { (table : List ℕ) → Forest n table (words room.old) → Tabled n table (words room.new) }
{
    for v in 0..n {
        let p = le::word(room, v) as usize;
        let q = le::word(room, p);
        le::set_word(room, v, q);
    }
}

// The table of least members of n nodes, of the m pairs that stand from number k of a row on.
fn find_leaders(room: &mut [u8], n: usize, src: &[u8], r: Row, k: usize, m: usize)
    requires { (4 * n ≤ length room.old) × (n < 4294967296) × Holds src.now r (k + 2 * m) × Below n (span src.now r k (2 * m)) }
    ensures { Tabled n (leaders n (paired (span src.now r k (2 * m)))) (words room.new) }
{
    start(room, n);
    join_all(room, n, src, r, k, m);
    flatten(room, n);
}

// Node k gets the number of its class, after so many classes whose least members are below it. Answered is how many there are now.
fn number_one(room: &mut [u8], n: usize, k: usize, count: usize) -> usize
    requires { (4 * n ≤ length room.old) × (n < 4294967296) × (k < n) × (count ≤ k) × (get_or (words room.old) k 0 ≤ k) }
    ensures { (result ≡ cond (eqb (get_or (words room.old) k 0) k) (count + 1) count)
        × (words room.new ≡ set (words room.old) k (number_of (words room.old) k count (get_or (words room.old) k 0))) }
{
    let l = le::word(room, k) as usize;
    if l == k {
        le::set_word(room, k, count as u32);
        return count + 1;
    }
    let id = le::word(room, l);
    le::set_word(room, k, id);
    count
}

// The table of least members becomes the map: the number of each node's class. Answered is how many classes there are.
fn number_classes(room: &mut [u8], n: usize) -> usize
    requires n_in_bounds { (4 * n ≤ length room.old) × (n < 4294967296) }
    requires falls { Falls n (words room.old) }
    ensures { (table : List ℕ) → Names n table (words room.old) → (result ≡ new_id (absorbed table) n) × Tabled n (numbered table) (words room.new) }
{
    let mut count: usize = 0;
    for k in 0..n {
        count = number_one(room, n, k, count);
    }
    count
}

// Whether node v has the label of its class's least member; the labels are a row.
fn same_label(room: &[u8], n: usize, src: &[u8], r: Row, v: usize) -> bool
    requires { (4 * n ≤ length room.now) × Holds src.now r n × (v < n) × (get_or (words room.now) v 0 ≤ v) }
    ensures { result ≡ eqb (entry src.now r (get_or (words room.now) v 0)) (entry src.now r v) }
{
    let l = le::word(room, v) as usize;
    le::number(src, r, l) == le::number(src, r, v)
}

// Whether the nodes of each class have one label: 11 is refused where they don't.
fn agree(room: &[u8], n: usize, src: &[u8], r: Row) -> bool
    requires n_in_bounds { (4 * n ≤ length room.now) × Holds src.now r n }
    requires falls { Falls n (words room.now) }
    ensures { (table : List ℕ) → Names n table (words room.now) → result ≡ same (looked (span src.now r 0 n) table) (span src.now r 0 n) }
{
    for v in 0..n {
        if !same_label(room, n, src, r, v) {
            return false;
        }
    }
    true
}

// The map of merging for a graph with pairs, as `map_classes` answers it.
fn map_joined(drawing: Drawing<'_>, room: &mut [u8]) -> Result<usize, Refusal>
    requires { 4 * drawing.sizes.nodes ≤ length room.old }
    ensures { MapMade (graph_in drawing.entry) (words room.new) result }
{
    let z = drawing.sizes;
    let pairs = drawing.lists() + z.sources + z.targets;
    find_leaders(room, z.nodes, drawing.src, drawing.body(), pairs, z.pairs);
    if !agree(room, z.nodes, drawing.src, drawing.labels()) {
        return Err(Refusal::LabelsDiffer);
    }
    let count = number_classes(room, z.nodes);
    Ok(count)
}

// The map of merging, in the first words of the room: of each node of a stored graph the number of its class. Answered is how many classes there are, or
// 11: two nodes of one class have different labels. Without pairs each node is its own class, and nothing is looked for.
pub fn map_classes(drawing: Drawing<'_>, room: &mut [u8]) -> Result<usize, Refusal>
    requires { 4 * drawing.sizes.nodes ≤ length room.old }
    ensures { MapMade (graph_in drawing.entry) (words room.new) result }
{
    let z = drawing.sizes;
    if z.pairs == 0 {
        start(room, z.nodes);
        return Ok(z.nodes);
    }
    map_joined(drawing, room)
}
