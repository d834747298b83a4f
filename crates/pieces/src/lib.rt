// The pieces of a form that building writes: what is copied from a stored graph, and what is new in it.
#![tactic(auto)]

ghost use Rattle.std.specs.Prelude.{◌≡◌, ℕ, ◌+◌, ◌-◌, ◌<◌, ◌≤◌, ◌^◌, List, [], ◌∷◌, ◌++◌, map, length};
ghost use Rattle.le.specs.Rows.{Holds, puts, span};
ghost use Rattle.graph.specs.Lists.{joined};
ghost use Rattle.graph.specs.Form.{edge_row};
ghost use Rattle.form.specs.Form.{body_of, body_size, lists_from};
ghost use Rattle.form.specs.Stored.{Rows, graph_of};
ghost use Rattle.form.specs.Drawn.{graph_in};
ghost use Rattle.write.specs.Write.{drawn, Put, Room};
ghost use Rattle.pieces.specs.Lent.{Lent, lent};

use form::{Drawing, Sizes};
use le::Row;

// The header of a graph of these sizes, and after it the first n labels of a row.
pub fn put_head(out: &mut [u8], y: Sizes, src: &[u8], labels: Row, n: usize)
    requires { Room out.old y × Holds src.now labels n × (n ≤ y.nodes + y.edges) }
    ensures { out.new ≡ drawn out.old y (span src.now labels 0 n) [] }
{
    write::put_header(out, y);
    le::copy_numbers(out, form::label_row(y), 0, src, labels, 0, n);
}

// The header of a graph of these sizes, the node labels of a stored graph, one label more, and its edge labels.
pub fn put_node_labels(out: &mut [u8], drawing: Drawing<'_>, y: Sizes, label: u32)
    requires { Room out.old y × (drawing.sizes.nodes + 1 + drawing.sizes.edges ≤ y.nodes + y.edges) }
    ensures { out.new ≡ drawn out.old y ((graph_in drawing.entry).labels ++ (label ∷ map (λ e. e.label) (graph_in drawing.entry).edges)) [] }
{
    let z = drawing.sizes;
    let from = drawing.labels();
    let to = form::label_row(y);
    put_head(out, y, drawing.src, from, z.nodes);
    le::put_number(out, to, z.nodes, label as usize);
    le::copy_numbers(out, to, z.nodes + 1, drawing.src, from, z.nodes, z.edges);
}

// The counts and ids of a stored graph from one of them on; what is answered is the index after them.
pub fn put_rest(out: &mut [u8], drawing: Drawing<'_>, y: Sizes, k: usize, from: usize) -> usize
    requires { Room out.old y × (from ≤ body_size drawing.sizes) × (k + (body_size drawing.sizes - from) ≤ body_size y) }
    ensures { Put out.old (body_of y) k (span drawing.entry.src.now (body_of drawing.entry.sizes) from (body_size drawing.entry.sizes - from)) out.new result }
{
    let z = drawing.sizes;
    let n = drawing.lists() + (z.sources + (z.targets + 2 * z.pairs)) - from;
    le::copy_numbers(
        out,
        form::body_row(y),
        k,
        drawing.src,
        drawing.body(),
        from,
        n,
    );
    k + n
}

// Two lists, one after the other.
pub fn put_both(
    out: &mut [u8],
    r: Row,
    k: usize,
    width: usize,
    a: &[u8],
    m: usize,
    b: &[u8],
    n: usize,
)
    requires { Holds out.old r (k + (m + n)) × Lent a.now width m × Lent b.now width n }
    ensures { out.new ≡ puts out.old r k (lent a.now width m ++ lent b.now width n) }
{
    let list = Row { at: 0, width };
    le::copy_numbers(out, r, k, a, list, 0, m);
    le::copy_numbers(out, r, k + m, b, list, 0, n);
}

// After the node labels: the edge labels of a stored graph and one more, its edges, and the two counts of the new one.
pub fn put_edges(out: &mut [u8], src: &[u8], z: Sizes, y: Sizes, label: u32, s: usize, t: usize)
    requires { Rows src.now z (graph_of src.now) × Room out.old y × (y.edges ≡ z.edges + 1) × (lists_from z + 2 ≤ body_size y) × (s < 2 ^ 32) × (t < 2 ^ 32) }
    ensures { (old labels : List ℕ) → length labels ≡ y.nodes → out.old ≡ drawn old y labels []
        → out.new ≡ drawn old y (labels ++ (map (λ e. e.label) (graph_of src.now).edges ++ (label ∷ []))) (joined edge_row (graph_of src.now).edges ++ (s ∷ t ∷ [])) }
{
    let labels = form::label_row(y);
    le::copy_numbers(
        out,
        labels,
        y.nodes,
        src,
        form::label_row(z),
        z.nodes,
        z.edges,
    );
    le::put_number(out, labels, y.nodes + z.edges, label as usize);
    let body = form::body_row(y);
    let n = 2 * z.edges + z.ports;
    le::copy_numbers(out, body, 0, src, form::body_row(z), 0, n);
    write::put_two(out, body, n, s, t);
}
