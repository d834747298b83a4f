// Adding a port to an edge: a new node, at the end of the edge's sources or of its targets. One walk over the edges before it, and one copy of the numbers.
#![tactic(auto)]

ghost use Rattle.std.specs.Prelude.{◌≡◌, ◌+◌, ◌<◌, ◌≤◌, ◌^◌, length};
ghost use Rattle.le.specs.Rows.{puts};
ghost use Rattle.graph.specs.Form.{edge_start, label_row, body};
ghost use Rattle.graph.specs.Calls.{on_graph, add_edge_source_call, add_edge_target_call};
ghost use Rattle.form.specs.Form.{Gives, body_of, body_size};
ghost use Rattle.form.specs.Drawn.{graph_in};
ghost use Rattle.write.specs.Write.{drawn, Room};
ghost use Rattle.ports.specs.Ports.{port_step, added, port_at, ported};

use form::{Done, Drawing, EdgeAt, Refusal, Sizes};

// The index of an edge in the row of counts and ids: past the edges before it.
pub fn edge_index(drawing: Drawing<'_>, edge: usize) -> usize
    requires { edge ≤ drawing.sizes.edges }
    ensures { result ≡ edge_start (graph_in drawing.entry).edges edge }
{
    let row = drawing.body();
    let mut k = 0;
    for i in 0..edge {
        let e = form::edge_at(drawing.src, row, k);
        k = e.end;
    }
    k
}

// Which ids of an edge a port is one of.
#[derive(Clone, Copy, Debug, PartialEq, Eq)]
pub enum Side {
    Source,
    Target,
}

// An edge with a port more: its counts, and after how many of its ids the new one goes.
#[derive(Clone, Copy)]
pub struct Port {
    pub sources: usize,
    pub targets: usize,
    pub before: usize,
}

// One more source, or one more target, each after those that there are.
fn port_at(e: EdgeAt, side: Side) -> Port
    requires { (e.sources < 2 ^ 32) × (e.targets < 2 ^ 32) }
    ensures { result ≡ port_at side e.sources e.targets }
{
    match side {
        Side::Source => Port {
            sources: e.sources + 1,
            targets: e.targets,
            before: e.sources,
        },
        Side::Target => Port {
            sources: e.sources,
            targets: e.targets + 1,
            before: e.sources + e.targets,
        },
    }
}

// The counts and ids of a stored graph, with a port more at the edge of index k.
fn put_port(out: &mut [u8], drawing: Drawing<'_>, y: Sizes, k: usize, p: Port)
    requires { Room out.old y × (body_size drawing.sizes + 1 ≤ body_size y) × (k + 2 + p.before ≤ body_size drawing.sizes) × (p.sources < 2 ^ 32) × (p.targets < 2 ^ 32) }
    ensures { out.new ≡ puts out.old (body_of y) 0 (ported (body (graph_in drawing.entry)) k p drawing.entry.sizes.nodes) }
{
    let src = drawing.src;
    let from = drawing.body();
    let to = form::body_row(y);
    let ids = k + 2;
    let new = ids + p.before;
    le::copy_numbers(out, to, 0, src, from, 0, k);
    write::put_two(out, to, k, p.sources, p.targets);
    le::copy_numbers(out, to, ids, src, from, ids, p.before);
    le::put_number(out, to, new, drawing.sizes.nodes);
    pieces::put_rest(out, drawing, y, new + 1, new);
}

// A stored graph with a node of this label more, the last source or target of the edge.
fn put_added(out: &mut [u8], drawing: Drawing<'_>, y: Sizes, edge: usize, label: u32, side: Side)
    requires { Room out.old y × (edge < drawing.sizes.edges) × (drawing.sizes.nodes + 1 + drawing.sizes.edges ≤ y.nodes + y.edges) × (body_size drawing.sizes + 1 ≤ body_size y) }
    ensures { out.new ≡ drawn out.old y (label_row (added side edge label (graph_in drawing.entry))) (body (added side edge label (graph_in drawing.entry))) }
{
    let k = edge_index(drawing, edge);
    let e = form::edge_at(drawing.src, drawing.body(), k);
    pieces::put_node_labels(out, drawing, y, label);
    put_port(out, drawing, y, k, port_at(e, side));
}

// One more node, the last source or target of an edge. Its id is the old node count.
fn add_port(src: &[u8], edge: u32, label: u32, side: Side, out: &mut [u8]) -> Result<Done, Refusal>
    ensures { Gives (on_graph src.now (length out.old) (λ f. port_step side edge label)) result out.old out.new }
{
    let drawing = read::read(src)?;
    let z = drawing.sizes;
    let i = lists::known(edge, z.edges)?;
    let y = write::sized(Sizes {
        nodes: z.nodes + 1,
        ports: z.ports + 1,
        ..z
    });
    let bytes = write::result_size(y, out.len())?;
    put_added(out, drawing, y, i, label, side);
    Ok(Done {
        a: bytes,
        b: z.nodes,
    })
}

// One more node, at the end of the edge's sources. Its id is the old node count.
pub fn add_edge_source(src: &[u8], edge: u32, label: u32, out: &mut [u8]) -> Result<Done, Refusal>
    ensures { Gives (add_edge_source_call src.now edge label (length out.old)) result out.old out.new }
{
    add_port(src, edge, label, Side::Source, out)
}

// One more node, at the end of the edge's targets. Its id is the old node count.
pub fn add_edge_target(src: &[u8], edge: u32, label: u32, out: &mut [u8]) -> Result<Done, Refusal>
    ensures { Gives (add_edge_target_call src.now edge label (length out.old)) result out.old out.new }
{
    add_port(src, edge, label, Side::Target, out)
}
