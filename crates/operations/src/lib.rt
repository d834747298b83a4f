// One more edge, between nodes that are there or between new ones: each call reads a stored graph, checks what it was given, and writes the new graph.
// Nothing is written before every check has passed.
#![tactic(auto)]

ghost use Rattle.std.specs.Prelude.{◌≡◌, ◌+◌, ◌<◌, ◌≤◌, ◌^◌, length};
ghost use Rattle.graph.specs.Form.{label_row, body};
ghost use Rattle.graph.specs.Build as build;
ghost use Rattle.graph.specs.Calls.{new_edge_call, new_operation_call};
ghost use Rattle.form.specs.Form.{Gives, body_size};
ghost use Rattle.form.specs.Drawn.{graph_in};
ghost use Rattle.write.specs.Write.{drawn, Room};
ghost use Rattle.pieces.specs.Lent.{Lent, lent};

use form::{Done, Drawing, Refusal, Sizes};

// A stored graph with an edge more, between listed nodes.
// A list is lent as bytes, and how many entries it has stands beside it: to divide its length once more is no plainer.
fn put_new_edge(
    out: &mut [u8],
    drawing: Drawing<'_>,
    y: Sizes,
    label: u32,
    sources: &[u8],
    s: usize,
    targets: &[u8],
    t: usize,
)
    requires { Room out.old y × (y.nodes ≡ drawing.sizes.nodes) × (y.edges ≡ drawing.sizes.edges + 1) × (body_size drawing.sizes + 2 + (s + t) ≤ body_size y)
        × (s < 2 ^ 32) × (t < 2 ^ 32) × Lent sources.now drawing.sizes.width s × Lent targets.now drawing.sizes.width t }
    ensures { out.new ≡ drawn out.old y
        (label_row (build.new_edge label (lent sources.now drawing.entry.sizes.width s) (lent targets.now drawing.entry.sizes.width t) (graph_in drawing.entry)))
        (body (build.new_edge label (lent sources.now drawing.entry.sizes.width s) (lent targets.now drawing.entry.sizes.width t) (graph_in drawing.entry))) }
{
    let z = drawing.sizes;
    pieces::put_head(out, y, drawing.src, drawing.labels(), z.nodes);
    pieces::put_edges(out, drawing.src, z, y, label, s, t);
    let lists = drawing.lists();
    let ids = lists + 2;
    pieces::put_both(out, form::body_row(y), ids, z.width, sources, s, targets, t);
    pieces::put_rest(out, drawing, y, ids + (s + t), lists);
}

// One more edge. Its id is the old edge count.
pub fn new_edge(
    src: &[u8],
    label: u32,
    sources: &[u8],
    targets: &[u8],
    out: &mut [u8],
) -> Result<Done, Refusal>
    ensures { Gives (new_edge_call src.now label sources.now targets.now (length out.old)) result out.old out.new }
{
    let drawing = read::read(src)?;
    let z = drawing.sizes;
    let s = lists::id_list(sources, z.width, z.nodes)?;
    let t = lists::id_list(targets, z.width, z.nodes)?;
    let new = s + t;
    // so that no sum below wraps
    if graph::MAX_PORTS < new {
        return Err(Refusal::ResultAboveLimit);
    }
    let y = write::sized(Sizes {
        edges: z.edges + 1,
        ports: z.ports + new,
        ..z
    });
    let bytes = write::result_size(y, out.len())?;
    put_new_edge(out, drawing, y, label, sources, s, targets, t);
    Ok(Done {
        a: bytes,
        b: z.edges,
    })
}

// A stored graph with an operation more, between new nodes of these labels, the counts again beside the lists.
fn put_new_operation(
    out: &mut [u8],
    drawing: Drawing<'_>,
    y: Sizes,
    label: u32,
    sources: &[u8],
    s: usize,
    targets: &[u8],
    t: usize,
)
    requires { Room out.old y × (y.nodes ≡ drawing.sizes.nodes + (s + t)) × (y.edges ≡ drawing.sizes.edges + 1) × (body_size drawing.sizes + 2 + (s + t) ≤ body_size y)
        × Lent sources.now 4 s × Lent targets.now 4 t }
    ensures { out.new ≡ drawn out.old y
        (label_row (build.new_operation label (lent sources.now 4 s) (lent targets.now 4 t) (graph_in drawing.entry)))
        (body (build.new_operation label (lent sources.now 4 s) (lent targets.now 4 t) (graph_in drawing.entry))) }
{
    let z = drawing.sizes;
    pieces::put_head(out, y, drawing.src, drawing.labels(), z.nodes);
    pieces::put_both(out, form::label_row(y), z.nodes, 4, sources, s, targets, t);
    pieces::put_edges(out, drawing.src, z, y, label, s, t);
    let lists = drawing.lists();
    let ids = lists + 2;
    write::put_range(out, form::body_row(y), ids, z.nodes, s + t);
    pieces::put_rest(out, drawing, y, ids + (s + t), lists);
}

// The source nodes, then the target nodes, then the edge between them. The edge's id is the old edge count.
pub fn new_operation(
    src: &[u8],
    label: u32,
    sources: &[u8],
    targets: &[u8],
    out: &mut [u8],
) -> Result<Done, Refusal>
    ensures { Gives (new_operation_call src.now label sources.now targets.now (length out.old)) result out.old out.new }
{
    let drawing = read::read(src)?;
    let z = drawing.sizes;
    let s = lists::label_list(sources)?;
    let t = lists::label_list(targets)?;
    let new = s + t;
    let y = write::sized(Sizes {
        nodes: z.nodes + new,
        edges: z.edges + 1,
        ports: z.ports + new,
        ..z
    });
    let bytes = write::result_size(y, out.len())?;
    put_new_operation(out, drawing, y, label, sources, s, targets, t);
    Ok(Done {
        a: bytes,
        b: z.edges,
    })
}
