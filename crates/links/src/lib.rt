// The table of spiderizing in the lent work room: which nodes are listed, and for each listed node and kind of entry the chain of its fresh nodes.
// The room is a row of cells. Node x has the four cells from 4 x on, one for each kind of entry: the fresh node that came last, 0 where there is none.
// A node that is not listed has the highest number of a cell there. Fresh node f has the cell at 3 nodes + f: the fresh node before it in its chain, or 0.
#![tactic(auto)]

ghost use Rattle.std.specs.Prelude.{◌≡◌, true, false, List, [], ◌∷◌, ◌++◌, ℕ, ◌+◌, ◌*◌, ◌-◌, ◌<◌, ◌≤◌, ◌^◌, length, get_or, set, replicate, IfSome, option_to_list};
ghost use Rattle.std.proofs.lemmas.List.Edits.{sets};
ghost use Rattle.le.specs.Rows.{Holds, puts};
ghost use Rattle.graph.specs.Lists.{keep, range};
ghost use Rattle.write.specs.Write.{Put};
ghost use Rattle.links.specs.Links.{cell_row, cell_count, cells, unlisted, is_listed, Heads, cell_of, linked_to, Chain, Table, spider_row, spiders_of, spiders};

use le::Row;

// The kinds of entries a node can have, in the order of its cells.
#[derive(Clone, Copy, Debug, PartialEq, Eq)]
pub enum Kind {
    GlobalSource,
    EdgeSource,
    EdgeTarget,
    GlobalTarget,
}

impl Kind {
    // Which of the four cells of a node belongs to it.
    fn cell(self) -> usize
        ensures { result ≡ cell_of self }
    {
        self as usize
    }
}

// The bytes of a cell.
const CELL: usize = 2;

// The row that the cells are.
fn cell_row() -> Row
    ensures { result ≡ cell_row }
{
    Row { at: 0, width: CELL }
}

// What the cells of a node hold that is not listed.
fn unlisted() -> usize
    ensures { result ≡ unlisted }
{
    form::highest(CELL)
}

// The cell at i.
fn cell(room: &[u8], i: usize) -> usize
    requires { i < cell_count room.now }
    ensures { (result ≡ get_or (cells room.now) i 0) × (result ≤ unlisted) }
{
    le::number(room, cell_row(), i)
}

// v as the cell at i.
fn set_cell(room: &mut [u8], i: usize, v: usize)
    requires { (i < cell_count room.old) × (v ≤ unlisted) }
    ensures { cells room.new ≡ set (cells room.old) i v }
{
    le::put_number(room, cell_row(), i, v);
}

// v in n cells from a cell on.
fn fill(room: &mut [u8], from: usize, n: usize, v: usize)
    requires { (from + n ≤ cell_count room.old) × (v ≤ unlisted) }
    ensures { cells room.new ≡ sets (cells room.old) from (replicate n v) }
{
    for k in 0..n {
        set_cell(room, from + k, v);
    }
}

// No node is listed.
pub fn list_none(room: &mut [u8], nodes: usize)
    requires { nodes * 4 ≤ cell_count room.old }
    ensures { Heads nodes (cells room.new) (λ x. false) }
{
    fill(room, 0, nodes * 4, unlisted());
}

// Every node is listed, and has no fresh node yet.
pub fn list_all(room: &mut [u8], nodes: usize)
    requires { nodes * 4 ≤ cell_count room.old }
    ensures { Heads nodes (cells room.new) (λ x. true) }
{
    fill(room, 0, nodes * 4, 0);
}

// One node more is listed.
pub fn list_id(room: &mut [u8], id: usize, nodes: usize)
    requires { (id < nodes) × (nodes * 4 ≤ cell_count room.old) }
    ensures { cells room.new ≡ sets (cells room.old) (id * 4) (replicate 4 0) }
{
    fill(room, id * 4, 4, 0);
}

// Whether a node is listed.
pub fn listed(room: &[u8], id: usize) -> bool
    requires { id * 4 < cell_count room.now }
    ensures { (nodes : ℕ) → id < nodes → result ≡ is_listed nodes (cells room.now) id }
{
    cell(room, id * 4) != unlisted()
}

// 1 for a listed node, 0 for any other.
pub fn one_if_listed(room: &[u8], id: usize) -> usize
    requires { id * 4 < cell_count room.now }
    ensures { (result ≤ 1) × ((nodes : ℕ) → id < nodes → result ≡ length (keep (is_listed nodes (cells room.now)) (id ∷ []))) }
{
    listed(room, id) as usize
}

// How many nodes are listed. A `for`: to the closure of a chain over the ids no bound on the id is known, without which `listed` says nothing.
pub fn count_listed(room: &[u8], nodes: usize) -> usize
    requires { nodes * 4 ≤ cell_count room.now }
    ensures { (result ≡ length (keep (is_listed nodes (cells room.now)) (range 0 nodes))) × (result ≤ nodes) }
{
    let mut n: usize = 0;
    for id in 0..nodes {
        n += one_if_listed(room, id);
    }
    n
}

// A fresh node, for an entry of this kind of a listed node: it goes in front of the chain.
pub fn link(room: &mut [u8], nodes: usize, id: usize, kind: Kind, fresh: usize)
    requires { (id < nodes) × (nodes ≤ fresh) × (fresh < unlisted) × (nodes * 3 + fresh < cell_count room.old) }
    ensures { cells room.new ≡ linked_to nodes id (cell_of kind) fresh (cells room.old) }
{
    let head = id * 4 + kind.cell();
    let before = cell(room, head);
    set_cell(room, nodes * 3 + fresh, before);
    set_cell(room, head, fresh);
}

// How many fresh nodes the chain has that starts in a cell.
fn chain_length(room: &[u8], nodes: usize, head: usize) -> usize
    requires { (es : List ℕ) × Chain nodes room.now head es }
    ensures { ((es : List ℕ) → Chain nodes room.now head es → result ≡ length es) × (result ≤ unlisted) }
{
    let mut n: usize = 0;
    let mut f = cell(room, head);
    while f != 0 {
        n += 1;
        f = cell(room, nodes * 3 + f);
    }
    n
}

// The fresh nodes of the chain that starts in a cell, in the order in which they came, into a row so that they end at an index.
fn put_chain(room: &[u8], nodes: usize, head: usize, out: &mut [u8], r: Row, end: usize)
    requires { ((es : List ℕ) × Chain nodes room.now head es × (length es ≤ end)) × Holds out.old r end }
    ensures { (es : List ℕ) → Chain nodes room.now head es → out.new ≡ puts out.old r (end - length es) es }
{
    let mut at = end;
    let mut f = cell(room, head);
    while f != 0 {
        at -= 1;
        le::put_number(out, r, at, f);
        f = cell(room, nodes * 3 + f);
    }
}

// The node itself as number k of a row, where it stands on this side of a spider. Answered is the next index.
fn put_itself(out: &mut [u8], r: Row, k: usize, node: Option<usize>) -> usize
    requires { Holds out.old r (k + length (option_to_list node)) × IfSome node (λ id. id < 2 ^ 32) }
    ensures { Put out.old r k (option_to_list node) out.new result }
{
    let Some(id) = node else {
        return k;
    };
    le::put_number(out, r, k, id);
    k + 1
}

// One side of a spider into a row: the node itself, if it stands there, and the n fresh nodes of a chain. Answered is the next index.
fn put_side(
    room: &[u8],
    nodes: usize,
    head: usize,
    n: usize,
    node: Option<usize>,
    out: &mut [u8],
    r: Row,
    k: usize,
) -> usize
    requires { ((es : List ℕ) × Chain nodes room.now head es × (n ≡ length es) × Holds out.old r (k + length (option_to_list node ++ es))) × IfSome node (λ id. id < 2 ^ 32) }
    ensures { (es : List ℕ) → Chain nodes room.now head es → n ≡ length es → Put out.old r k (option_to_list node ++ es) out.new result }
{
    let end = put_itself(out, r, k, node) + n;
    put_chain(room, nodes, head, out, r, end);
    end
}

// A spider of a node into a row, from its entries of this kind to those of the next: the node itself stands before the first or before the second.
// Both sides are written by a call of `put_side` from one place, so that the compiler inlines it. Answered is the next index.
fn put_chains(
    room: &[u8],
    nodes: usize,
    id: usize,
    kind: usize,
    first: bool,
    out: &mut [u8],
    r: Row,
    k: usize,
) -> usize
    requires { ((a : List ℕ) × (b : List ℕ) × Chain nodes room.now (id * 4 + kind) a × Chain nodes room.now (id * 4 + (kind + 1)) b × Holds out.old r (k + length (spider_row first id a b))) × (id < 2 ^ 32) }
    ensures { (a b : List ℕ) → Chain nodes room.now (id * 4 + kind) a → Chain nodes room.now (id * 4 + (kind + 1)) b
        → Put out.old r k (spider_row first id a b) out.new result }
{
    let head = id * 4 + kind;
    let tail = id * 4 + (kind + 1);
    let a = chain_length(room, nodes, head);
    let b = chain_length(room, nodes, tail);
    let second = !first;
    write::put_two(out, r, k, a + (first as usize), b + (second as usize));
    let mut n = a;
    let mut here = first;
    let mut next = k + 2;
    for half in 0..2 {
        let node = here.then_some(id);
        next = put_side(room, nodes, head + half, n, node, out, r, next);
        n = b;
        here = second;
    }
    next
}

// The two spiders of a node into a row, if it is listed: side 0 from its global sources to its edge sources, side 1 from its edge targets to its global targets.
// Both are written by a call of `put_chains` from one place, so that the compiler inlines it. Answered is the next index.
fn put_spider(room: &[u8], nodes: usize, id: usize, out: &mut [u8], r: Row, k: usize) -> usize
    requires { (id < nodes) × (id < 2 ^ 32) × ((fresh : ℕ → ℕ → List ℕ) × Table nodes room.now fresh × Holds out.old r (k + length (spiders_of nodes (cells room.now) fresh (id ∷ [])))) }
    ensures { (fresh : ℕ → ℕ → List ℕ) → Table nodes room.now fresh
        → Put out.old r k (spiders_of nodes (cells room.now) fresh (id ∷ [])) out.new result }
{
    if !listed(room, id) {
        return k;
    }
    let mut next = k;
    for side in 0..2 {
        next = put_chains(room, nodes, id, 2 * side, side == 1, out, r, next);
    }
    next
}

// The spiders of all listed nodes, in ascending order, into a row from an index on. Answered is the next index.
pub fn put_spiders(room: &[u8], nodes: usize, out: &mut [u8], r: Row, start: usize) -> usize
    requires { (nodes ≤ 2 ^ 32) × ((fresh : ℕ → ℕ → List ℕ) × Table nodes room.now fresh × Holds out.old r (start + length (spiders nodes (cells room.now) fresh nodes))) }
    ensures { (fresh : ℕ → ℕ → List ℕ) → Table nodes room.now fresh
        → Put out.old r start (spiders nodes (cells room.now) fresh nodes) out.new result }
{
    let mut k = start;
    for id in 0..nodes {
        k = put_spider(room, nodes, id, out, r, k);
    }
    k
}
