// The pass of spiderizing: every entry of a listed node gets a fresh node. The merged graph stands in the result; one pass rewrites its lists there while it numbers the
// entries, writes the label of each fresh node and links it to the one before it of the same node and kind; two spiders for each listed node are read off these chains.
#![tactic(auto)]

ghost use Rattle.std.specs.Prelude.{◌≡◌, [], ◌∷◌, ◌+◌, ◌<◌, length};
ghost use Rattle.le.specs.Rows.{entry, puts};
ghost use Rattle.graph.specs.Lists.{joined};
ghost use Rattle.graph.specs.Graph.{Graph};
ghost use Rattle.graph.specs.Form.{edge_row, body};
ghost use Rattle.graph.specs.Spider.{entries};
ghost use Rattle.form.specs.Form.{labels_of, body_of, lists_from};
ghost use Rattle.write.specs.Write.{Room};
ghost use Rattle.links.specs.Links.{cells, is_listed, cell_of};
ghost use Rattle.rewriting.specs.Rewriting.{labelled, more, kind_at, more_two, EdgesPassed, Rewrites, Prepared, spidered, Laid};

use form::{EdgeAt, Sizes};
use links::Kind;

// The label of a node as number k of the labels, all in the result.
fn put_label(out: &mut [u8], y: Sizes, id: usize, k: usize)
    requires { Room out.old y × (id < y.nodes) × (k < y.nodes) }
    ensures { out.new ≡ puts out.old (labels_of y) k (entry out.old (labels_of y) id ∷ []) }
{
    let row = form::label_row(y);
    let label = le::number(out, row, id);
    le::put_number(out, row, k, label);
}

// The entry at index k of the result rewritten: if its node is listed, a fresh node for it, numbered `next`, with the node's label. A fresh node's number
// is its index among the labels. Answered is the next fresh node.
fn rewrite_entry(
    y: Sizes,
    nodes: usize,
    kind: Kind,
    next: usize,
    room: &mut [u8],
    out: &mut [u8],
    k: usize,
) -> usize
    requires { Prepared y nodes k 1 next room.old out.old }
    ensures { Rewrites y nodes k 1 (more (cell_of kind)) next room.old out.old room.new out.new result }
{
    let row = form::body_row(y);
    let id = le::number(out, row, k);
    if !links::listed(room, id) {
        return next;
    }
    links::link(room, nodes, id, kind, next);
    put_label(out, y, id, next);
    le::put_number(out, row, k, next);
    next + 1
}

// The kind of entry i of two lists that stand one after the other, the first of this length.
fn kind_at(first: usize, a: Kind, b: Kind, i: usize) -> Kind
    ensures { cell_of result ≡ kind_at first (cell_of a) (cell_of b) i }
{
    if i < first { a } else { b }
}

// The sources and targets of an edge rewritten, where they stand: in one loop, and called from one place only, so that the compiler inlines it all into the loop over the
// edges. Answered is the next fresh node.
fn rewrite_edge(
    y: Sizes,
    nodes: usize,
    e: EdgeAt,
    start: usize,
    room: &mut [u8],
    out: &mut [u8],
) -> usize
    requires { Prepared y nodes e.first (e.sources + e.targets) start room.old out.old }
    ensures { Rewrites y nodes e.first (e.sources + e.targets) (more_two e.sources 1 2) start room.old out.old room.new out.new result }
{
    let mut next = start;
    for i in 0..e.sources + e.targets {
        let kind = kind_at(e.sources, Kind::EdgeSource, Kind::EdgeTarget, i);
        next = rewrite_entry(y, nodes, kind, next, room, out, e.first + i);
    }
    next
}

// The first n edges of the result rewritten, where they stand: the counts stay. Answered is the next fresh node.
fn rewrite_edges(y: Sizes, nodes: usize, n: usize, room: &mut [u8], out: &mut [u8]) -> usize
    requires { ((g : Graph) × Laid g nodes n y room.old out.old) × Room out.old y }
    ensures { (g : Graph) → Laid g nodes n y room.old out.old → EdgesPassed g nodes y g.edges room.old out.old room.new out.new result }
{
    let row = form::body_row(y);
    let mut k: usize = 0;
    let mut next = nodes;
    for i in 0..n {
        let e = form::edge_at(out, row, k);
        next = rewrite_edge(y, nodes, e, next, room, out);
        k = e.end;
    }
    next
}

// The global sources and targets of the result rewritten, where they stand. Answered is the next fresh node.
fn rewrite_lists(y: Sizes, nodes: usize, start: usize, room: &mut [u8], out: &mut [u8]) -> usize
    requires { Prepared y nodes (lists_from y) (y.sources + y.targets) start room.old out.old }
    ensures { Rewrites y nodes (lists_from y) (y.sources + y.targets) (more_two y.sources 0 3) start room.old out.old room.new out.new result }
{
    let from = 2 * y.edges + y.ports;
    let mut next = start;
    for i in 0..y.sources + y.targets {
        let kind = kind_at(y.sources, Kind::GlobalSource, Kind::GlobalTarget, i);
        next = rewrite_entry(y, nodes, kind, next, room, out, from + i);
    }
    next
}

// Replaces the entries of listed nodes in the result, and builds their spiders behind the rows of the first edges: all counts and ids of the spiderized form, and the labels of the
// fresh nodes.
pub fn rewrite_all(
    y: Sizes,
    nodes: usize,
    edges: usize,
    rows: usize,
    room: &mut [u8],
    out: &mut [u8],
)
    requires { ((g : Graph) × Laid g nodes edges y room.old out.old × (rows ≡ length (joined edge_row g.edges))) × Room out.old y }
    ensures { (g : Graph) → Laid g nodes edges y room.old out.old → rows ≡ length (joined edge_row g.edges)
        → out.new ≡ puts (puts out.old (labels_of y) nodes (labelled g.labels (is_listed nodes (cells room.old)) (entries g)))
        (body_of y) 0 (body (spidered g nodes (cells room.old))) }
{
    let next = rewrite_edges(y, nodes, edges, room, out);
    rewrite_lists(y, nodes, next, room, out);
    let row = form::body_row(y);
    links::put_spiders(room, nodes, out, row, rows);
}
