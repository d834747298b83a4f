// Building graphs: each call reads a stored graph, checks what it was given, and writes the new graph. Nothing is written before every check has passed.
#![tactic(auto)]

ghost use Rattle.std.specs.Prelude.{◌≡◌, ◌+◌, ◌<◌, ◌≤◌, ◌^◌, length};
ghost use Rattle.graph.specs.Form.{label_row, body};
ghost use Rattle.graph.specs.Build as build;
ghost use Rattle.graph.specs.Calls.{empty_call, discrete_call, new_node_call, unify_call};
ghost use Rattle.form.specs.Form.{Gives, body_size};
ghost use Rattle.form.specs.Drawn.{graph_in};
ghost use Rattle.write.specs.Write.{drawn, Room};

use form::{Done, Drawing, Refusal, Sizes};
use le::Row;

// ---- graphs from nothing

// The graph with nothing in it.
pub fn empty(out: &mut [u8]) -> Result<Done, Refusal>
    ensures { Gives (empty_call (length out.old)) result out.old out.new }
{
    let y = write::sized(form::NOTHING);
    let bytes = write::result_size(y, out.len())?;
    write::put_header(out, y);
    Ok(Done { a: bytes, b: 0 })
}

// Nodes of these labels and nothing else.
pub fn discrete(labels: &[u8], out: &mut [u8]) -> Result<Done, Refusal>
    ensures { Gives (discrete_call labels.now (length out.old)) result out.old out.new }
{
    let n = lists::label_list(labels)?;
    let y = write::sized(Sizes {
        nodes: n,
        ..form::NOTHING
    });
    let bytes = write::result_size(y, out.len())?;
    pieces::put_head(out, y, labels, Row { at: 0, width: 4 }, n);
    Ok(Done { a: bytes, b: 0 })
}

// ---- graphs from a graph

// A stored graph with a node of this label more.
fn put_new_node(out: &mut [u8], drawing: Drawing<'_>, y: Sizes, label: u32)
    requires { Room out.old y × (drawing.sizes.nodes + 1 + drawing.sizes.edges ≤ y.nodes + y.edges) × (body_size drawing.sizes ≤ body_size y) }
    ensures { out.new ≡ drawn out.old y (label_row (build.new_node label (graph_in drawing.entry))) (body (build.new_node label (graph_in drawing.entry))) }
{
    pieces::put_node_labels(out, drawing, y, label);
    pieces::put_rest(out, drawing, y, 0, 0);
}

// One more node. Its id is the old node count.
pub fn new_node(src: &[u8], label: u32, out: &mut [u8]) -> Result<Done, Refusal>
    ensures { Gives (new_node_call src.now label (length out.old)) result out.old out.new }
{
    let drawing = read::read(src)?;
    let z = drawing.sizes;
    let y = write::sized(Sizes {
        nodes: z.nodes + 1,
        ..z
    });
    let bytes = write::result_size(y, out.len())?;
    put_new_node(out, drawing, y, label);
    Ok(Done {
        a: bytes,
        b: z.nodes,
    })
}

// A stored graph with a pending pair more.
fn put_unified(out: &mut [u8], drawing: Drawing<'_>, y: Sizes, v: usize, w: usize)
    requires { Room out.old y × (drawing.sizes.nodes + drawing.sizes.edges ≤ y.nodes + y.edges) × (body_size drawing.sizes + 2 ≤ body_size y) × (v < 2 ^ 32) × (w < 2 ^ 32) }
    ensures { out.new ≡ drawn out.old y (label_row (build.unify v w (graph_in drawing.entry))) (body (build.unify v w (graph_in drawing.entry))) }
{
    let labels = drawing.sizes.nodes + drawing.sizes.edges;
    pieces::put_head(out, y, drawing.src, drawing.labels(), labels);
    let end = pieces::put_rest(out, drawing, y, 0, 0);
    write::put_two(out, form::body_row(y), end, v, w);
}

// One more pending pair. No labels are compared.
pub fn unify(src: &[u8], v: u32, w: u32, out: &mut [u8]) -> Result<Done, Refusal>
    ensures { Gives (unify_call src.now v w (length out.old)) result out.old out.new }
{
    let drawing = read::read(src)?;
    let z = drawing.sizes;
    let first = lists::known(v, z.nodes)?;
    let second = lists::known(w, z.nodes)?;
    let y = write::sized(Sizes {
        pairs: z.pairs + 1,
        ..z
    });
    let bytes = write::result_size(y, out.len())?;
    put_unified(out, drawing, y, first, second);
    Ok(Done { a: bytes, b: 0 })
}
