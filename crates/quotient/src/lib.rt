// 02, T-01: the pending pairs carried out, after `quotient` of both Rust files. The map of the classes stands in the work room, a word for each node; since the
// classes keep the sizes of edges and lists, each count and id is written at the index where it was read.
#![tactic(auto)]

ghost use Rattle.std.specs.Prelude.{◌≡◌, cond, [], ◌∷◌, map as each, ◌+◌, ◌*◌, ◌≤◌, eqb, length, get_or};
ghost use Rattle.le.specs.Le.{Below, words};
ghost use Rattle.le.specs.Rows.{Holds, entry, span};
ghost use Rattle.graph.specs.Lists.{joined};
ghost use Rattle.graph.specs.Form.{edge_row, label_row, body};
ghost use Rattle.graph.specs.Versions.{fitting};
ghost use Rattle.graph.specs.Merge.{looked, looked_edge, merged};
ghost use Rattle.graph.specs.Calls.{quotient_call};
ghost use Rattle.form.specs.Form.{sizes_of, Low, labels_of, body_of, lists_from, GivesMap};
ghost use Rattle.form.specs.Drawn.{graph_in};
ghost use Rattle.write.specs.Write.{Put, Room, drawn};
ghost use Rattle.quotient.specs.Merging.{Mapped};

use form::{Done, Drawing, Refusal, Sizes};
use le::Row;

// The work room that `quotient` is lent at least: a word for each node.
pub const ROOM_QUOTIENT: usize = 4 * graph::MAX_NODES;

// The label of node v, if its class has the number that is next: then v is the class's least member. Answers the number that is next.
fn put_class_label(
    src: &[u8],
    from: Row,
    v: usize,
    room: &[u8],
    out: &mut [u8],
    to: Row,
    j: usize,
) -> usize
    requires { (4 * v + 4 ≤ length room.now) × Holds src.now from (v + 1) × Holds out.old to (j + length (cond (eqb (get_or (words room.now) v 0) j) (entry src.now from v ∷ []) [])) }
    ensures { Put out.old to j (cond (eqb (get_or (words room.now) v 0) j) (entry src.now from v ∷ []) []) out.new result }
{
    let class = le::word(room, v) as usize;
    if class != j {
        return j;
    }
    le::put_number(out, to, j, le::number(src, from, v));
    j + 1
}

// The labels of the classes. Answers how many there are. The rows are made here, so that their width is known.
pub fn put_class_labels(drawing: Drawing<'_>, room: &[u8], out: &mut [u8], y: Sizes) -> usize
    requires { Mapped drawing room.now × Low y × Holds out.old (labels_of y) (length (merged (graph_in drawing)).graph.labels) }
    ensures { Put out.old (labels_of y) 0 (merged (graph_in drawing.entry)).graph.labels out.new result }
{
    let from = drawing.labels();
    let to = form::label_row(y);
    let mut j: usize = 0;
    for v in 0..drawing.sizes.nodes {
        j = put_class_label(drawing.src, from, v, room, out, to, j);
    }
    j
}

// The n ids from number k on, each renamed by the words of the room, at the same index.
fn put_renamed_ids(drawing: Drawing<'_>, k: usize, n: usize, room: &[u8], out: &mut [u8], to: Row)
    requires { (4 * drawing.sizes.nodes ≤ length room.now) × Holds drawing.src.now (body_of drawing.sizes) (k + n)
        × Below drawing.sizes.nodes (span drawing.src.now (body_of drawing.sizes) k n) × Holds out.old to (k + n) }
    ensures { Put out.old to k (looked (words room.now) (span drawing.entry.src.now (body_of drawing.entry.sizes) k n)) out.new (k + n) }
{
    let body = drawing.body();
    for i in 0..n {
        let id = le::number(drawing.src, body, k + i);
        let class = le::word(room, id) as usize;
        le::put_number(out, to, k + i, class);
    }
}

// The edges with renamed ids. Answers where the global lists begin.
pub fn put_renamed_edges(drawing: Drawing<'_>, room: &[u8], out: &mut [u8], to: Row) -> usize
    requires { Mapped drawing room.now × Holds out.old to (lists_from drawing.sizes) }
    ensures { (result ≡ lists_from drawing.entry.sizes) × Put out.old to 0 (joined edge_row (each (looked_edge (words room.now)) (graph_in drawing.entry).edges)) out.new result }
{
    let body = drawing.body();
    let mut k: usize = 0;
    for i in 0..drawing.sizes.edges {
        let e = form::edge_at(drawing.src, body, k);
        write::put_two(out, to, k, e.sources, e.targets);
        put_renamed_ids(drawing, e.first, e.sources + e.targets, room, out, to);
        k = e.end;
    }
    k
}

// The merged graph, which has sizes y, written by the map in the room.
fn put_merged(drawing: Drawing<'_>, y: Sizes, room: &[u8], out: &mut [u8])
    requires mapped { Mapped drawing room.now × Room out.old y }
    requires y_value { y ≡ sizes_of (fitting (merged (graph_in drawing)).graph) (merged (graph_in drawing)).graph }
    ensures { out.new ≡ drawn out.old y (label_row (merged (graph_in drawing.entry)).graph) (body (merged (graph_in drawing.entry)).graph) }
{
    let z = drawing.sizes;
    write::put_header(out, y);
    let nodes = put_class_labels(drawing, room, out, y);
    let labels = drawing.labels();
    let new_labels = form::label_row(y);
    le::copy_numbers(
        out,
        new_labels,
        nodes,
        drawing.src,
        labels,
        z.nodes,
        z.edges,
    );
    let new_body = form::body_row(y);
    let lists = put_renamed_edges(drawing, room, out, new_body);
    put_renamed_ids(drawing, lists, z.sources + z.targets, room, out, new_body);
}

// The graph with one node for each class of nodes that pairs join, and the map of each old node to its new id.
pub fn quotient(
    src: &[u8],
    out: &mut [u8],
    map: &mut [u8],
    room: &mut [u8],
) -> Result<Done, Refusal>
    ensures { GivesMap (quotient_call src.now (length out.old) (length map.old) (length room.old)) result out.old out.new map.old map.new }
{
    lists::work_room(room.len(), ROOM_QUOTIENT)?;
    let drawing = read::read(src)?;
    let z = drawing.sizes;
    let nodes = classes::map_classes(drawing, room)?;
    let y = write::sized(Sizes {
        nodes,
        pairs: 0,
        ..z
    });
    let bytes = write::result_size(y, out.len())?;
    lists::work_room(map.len(), z.nodes * z.width)?;
    let words = Row { at: 0, width: 4 };
    let ids = Row {
        at: 0,
        width: z.width,
    };
    le::copy_numbers(map, ids, 0, room, words, 0, z.nodes);
    put_merged(drawing, y, room, out);
    Ok(Done {
        a: bytes,
        b: z.nodes,
    })
}
