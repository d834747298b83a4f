// A stored graph read, and read and written: the calls of document 01's module 1.
#![tactic(auto)]

ghost use Rattle.std.specs.Prelude.{[], ◌∷◌, ◌≡◌, ◌≤◌, length};
ghost use Rattle.le.specs.Rows.{row_at, puts};
ghost use Rattle.graph.specs.Calls.{read_call, rewrite_call};
ghost use Rattle.graph.specs.Form.{body, label_row};
ghost use Rattle.form.specs.Form.{Gives, Low, counts_of, body_size};
ghost use Rattle.form.specs.Drawn.{graph_in};
ghost use Rattle.write.specs.Write.{drawn, Room};

use form::{Done, Drawing, Refusal, Sizes};
use le::Row;

// How many bytes the sizes of a graph take: six numbers of 4 bytes.
const SIZES_BYTES: usize = 24;

// The sizes of a graph as a row: nodes, edges, ports, global sources, global targets, pairs.
fn put_sizes(out: &mut [u8], z: Sizes)
    requires { Low z × (24 ≤ length out.old) }
    ensures { out.new ≡ puts out.old (row_at 0 4) 0 (z.nodes ∷ z.edges ∷ z.ports ∷ z.sources ∷ z.targets ∷ z.pairs ∷ []) }
{
    let r = Row { at: 0, width: 4 };
    write::put_two(out, r, 0, z.nodes, z.edges);
    write::put_two(out, r, 2, z.ports, z.sources);
    write::put_two(out, r, 4, z.targets, z.pairs);
}

// The graph read: its sizes, written.
pub fn read_sizes(src: &[u8], out: &mut [u8]) -> Result<Done, Refusal>
    ensures { Gives (read_call src.now (length out.old)) result out.old out.new }
{
    let drawing = read::read(src)?;
    if out.len() < SIZES_BYTES {
        return Err(Refusal::NoRoom);
    }
    put_sizes(out, drawing.sizes);
    Ok(Done {
        a: SIZES_BYTES,
        b: 0,
    })
}

// How many counts and ids a stored graph has.
fn body_size(drawing: Drawing<'_>) -> usize
    ensures { result ≡ body_size drawing.entry.sizes }
{
    let z = drawing.sizes;
    drawing.lists() + (z.sources + (z.targets + 2 * z.pairs))
}

// A stored graph, written in the sizes y that it has in the version which it fits.
fn put_graph(drawing: Drawing<'_>, y: Sizes, out: &mut [u8])
    requires { Room out.old y × (counts_of y ≡ counts_of drawing.sizes) × (y.ports ≡ drawing.sizes.ports) }
    ensures { out.new ≡ drawn out.old y (label_row (graph_in drawing.entry)) (body (graph_in drawing.entry)) }
{
    let src = drawing.src;
    let labels = drawing.sizes.nodes + drawing.sizes.edges;
    let numbers = body_size(drawing);
    let to_labels = form::label_row(y);
    let to_body = form::body_row(y);
    write::put_header(out, y);
    le::copy_numbers(out, to_labels, 0, src, drawing.labels(), 0, labels);
    le::copy_numbers(out, to_body, 0, src, drawing.body(), 0, numbers);
}

// The graph read and written.
pub fn rewrite(src: &[u8], out: &mut [u8]) -> Result<Done, Refusal>
    ensures { Gives (rewrite_call src.now (length out.old)) result out.old out.new }
{
    let drawing = read::read(src)?;
    let z = drawing.sizes;
    let y = write::sized(z);
    let bytes = write::result_size(y, out.len())?;
    put_graph(drawing, y, out);
    Ok(Done { a: bytes, b: 0 })
}
