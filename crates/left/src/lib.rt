// What is left is written: labels and edges, and the graph without its marked edges.
#![tactic(auto)]

ghost use Rattle.std.specs.Prelude.{◌≡◌, cond, ℕ, ◌+◌, ◌<◌, ◌≤◌, [], ◌∷◌, length};
ghost use Rattle.le.specs.Rows.{Holds, entry, span};
ghost use Rattle.graph.specs.Lists.{joined};
ghost use Rattle.graph.specs.Form.{edge_row, label_row, body};
ghost use Rattle.graph.specs.Versions.{fitting};
ghost use Rattle.graph.specs.Delete.{remaining};
ghost use Rattle.form.specs.Form.{sizes_of, Low, labels_of};
ghost use Rattle.form.specs.Drawn.{graph_in};
ghost use Rattle.write.specs.Write.{Put, Room, drawn};
ghost use Rattle.gone.specs.Marks.{marked, unmarked_edges};

use form::{Drawing, Sizes};
use le::Row;

// The label at number k, if the id that it is of stays. Answers where the next one goes.
fn put_left_label(
    src: &[u8],
    from: Row,
    k: usize,
    room: &[u8],
    id: usize,
    out: &mut [u8],
    to: Row,
    j: usize,
) -> usize
    requires { (n : ℕ) × (id < n) × (id < length room.now) × Holds src.now from (k + 1) × Holds out.old to (j + length (cond (marked room.now n id) [] (entry src.now from k ∷ []))) }
    ensures { (n : ℕ) → id < n → Put out.old to j (cond (marked room.now n id) [] (entry src.now from k ∷ [])) out.new result }
{
    if room[id] != 0 {
        return j;
    }
    le::put_number(out, to, j, le::number(src, from, k));
    j + 1
}

// Of n labels from number k on, those of unmarked ids, in order. Answers where the next one goes. The rows are made here, so that their width is known.
pub fn put_left_labels(
    src: &[u8],
    z: Sizes,
    k: usize,
    n: usize,
    room: &[u8],
    out: &mut [u8],
    y: Sizes,
    first: usize,
) -> usize
    requires { Low z × Low y × (n ≤ length room.now) × Holds src.now (labels_of z) (k + n) × Holds out.old (labels_of y) (first + length (remaining (marked room.now n) 0 (span src.now (labels_of z) k n))) }
    ensures { Put out.old (labels_of y) first (remaining (marked room.now n) 0 (span src.now (labels_of z) k n)) out.new result }
{
    let from = form::label_row(z);
    let to = form::label_row(y);
    let mut j = first;
    for i in 0..n {
        j = put_left_label(src, from, k + i, room, i, out, to, j);
    }
    j
}

// The unmarked edges, in order.
fn put_left_edges(drawing: Drawing<'_>, room: &[u8], out: &mut [u8], to: Row) -> usize
    requires { (drawing.sizes.edges ≤ length room.now) × Holds out.old to (length (joined edge_row (remaining (marked room.now drawing.sizes.edges) 0 (graph_in drawing).edges))) }
    ensures { Put out.old to 0 (joined edge_row (remaining (marked room.now drawing.entry.sizes.edges) 0 (graph_in drawing.entry).edges)) out.new result }
{
    let src = drawing.src;
    let body = drawing.body();
    let mut k: usize = 0;
    let mut j: usize = 0;
    for i in 0..drawing.sizes.edges {
        let e = form::edge_at(src, body, k);
        let n = gone::if_stays(room, i, e.end - k);
        le::copy_numbers(out, to, j, src, body, k, n);
        j += n;
        k = e.end;
    }
    j
}

// A stored graph without its marked edges, which has sizes y, written.
pub fn put_without_edges(drawing: Drawing<'_>, y: Sizes, room: &[u8], out: &mut [u8])
    requires stored { (drawing.sizes.edges ≤ length room.now) × Room out.old y }
    requires y_value { y ≡ sizes_of (fitting (unmarked_edges room.now drawing.sizes.edges (graph_in drawing))) (unmarked_edges room.now drawing.sizes.edges (graph_in drawing)) }
    ensures { out.new ≡ drawn out.old y (label_row (unmarked_edges room.now drawing.entry.sizes.edges (graph_in drawing.entry))) (body (unmarked_edges room.now drawing.entry.sizes.edges (graph_in drawing.entry))) }
{
    let z = drawing.sizes;
    let src = drawing.src;
    let labels = drawing.labels();
    let new_labels = form::label_row(y);
    write::put_header(out, y);
    le::copy_numbers(out, new_labels, 0, src, labels, 0, z.nodes);
    put_left_labels(src, z, z.nodes, z.edges, room, out, y, z.nodes);
    let new_body = form::body_row(y);
    let lists = put_left_edges(drawing, room, out, new_body);
    let n = z.sources + (z.targets + 2 * z.pairs);
    le::copy_numbers(
        out,
        new_body,
        lists,
        src,
        drawing.body(),
        drawing.lists(),
        n,
    );
}
