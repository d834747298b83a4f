// Open graphs from nothing: nodes as they are, and one operation with its ends open.
#![tactic(auto)]

ghost use Rattle.std.specs.Prelude.{◌≡◌, ◌+◌, ◌≤◌, length};
ghost use Rattle.graph.specs.Form.{label_row, body};
ghost use Rattle.graph.specs.Build as build;
ghost use Rattle.graph.specs.Calls.{identity_call, singleton_call};
ghost use Rattle.form.specs.Form.{Gives, body_size};
ghost use Rattle.write.specs.Write.{drawn, Room};
ghost use Rattle.pieces.specs.Lent.{Lent, lent};

use form::{Done, Refusal, Sizes};
use le::Row;

// n nodes of these labels, each a global source and a global target, in order.
// A list is lent as bytes, and how many entries it has stands beside it: to divide its length once more is no plainer.
fn put_identity(out: &mut [u8], y: Sizes, labels: &[u8], n: usize)
    requires { Room out.old y × (n ≤ y.nodes) × (n + n ≤ body_size y) × Lent labels.now 4 n }
    ensures { out.new ≡ drawn out.old y (label_row (build.identity (lent labels.now 4 n))) (body (build.identity (lent labels.now 4 n))) }
{
    pieces::put_head(out, y, labels, Row { at: 0, width: 4 }, n);
    let body = form::body_row(y);
    write::put_range(out, body, 0, 0, n);
    write::put_range(out, body, n, 0, n);
}

// Nodes of these labels, each a global source and a global target, in order.
pub fn identity(labels: &[u8], out: &mut [u8]) -> Result<Done, Refusal>
    ensures { Gives (identity_call labels.now (length out.old)) result out.old out.new }
{
    let n = lists::label_list(labels)?;
    let y = write::sized(Sizes {
        nodes: n,
        sources: n,
        targets: n,
        ..form::NOTHING
    });
    let bytes = write::result_size(y, out.len())?;
    put_identity(out, y, labels, n);
    Ok(Done { a: bytes, b: 0 })
}

// s source nodes and t target nodes of these labels, and an operation between them with its ends open.
fn put_singleton(
    out: &mut [u8],
    y: Sizes,
    label: u32,
    sources: &[u8],
    s: usize,
    targets: &[u8],
    t: usize,
)
    requires { Room out.old y × (s + t ≤ y.nodes) × (1 ≤ y.edges) × (2 + (s + t) + (s + t) ≤ body_size y) × Lent sources.now 4 s × Lent targets.now 4 t }
    ensures { out.new ≡ drawn out.old y (label_row (build.singleton label (lent sources.now 4 s) (lent targets.now 4 t))) (body (build.singleton label (lent sources.now 4 s) (lent targets.now 4 t))) }
{
    let n = s + t;
    let labels = form::label_row(y);
    let lent = Row { at: 0, width: 4 };
    pieces::put_head(out, y, sources, lent, s);
    le::copy_numbers(out, labels, s, targets, lent, 0, t);
    le::put_number(out, labels, n, label as usize);
    let body = form::body_row(y);
    write::put_two(out, body, 0, s, t);
    write::put_range(out, body, 2, 0, n);
    write::put_range(out, body, 2 + n, 0, n);
}

// One operation alone, its sources and targets the global ones.
pub fn singleton(
    label: u32,
    sources: &[u8],
    targets: &[u8],
    out: &mut [u8],
) -> Result<Done, Refusal>
    ensures { Gives (singleton_call label sources.now targets.now (length out.old)) result out.old out.new }
{
    let s = lists::label_list(sources)?;
    let t = lists::label_list(targets)?;
    let n = s + t;
    let y = write::sized(Sizes {
        nodes: n,
        edges: 1,
        ports: n,
        sources: s,
        targets: t,
        ..form::NOTHING
    });
    let bytes = write::result_size(y, out.len())?;
    put_singleton(out, y, label, sources, s, targets, t);
    Ok(Done { a: bytes, b: 0 })
}
