// The pieces that writers share: the size of a result (refusals 9 and 10), its header, and numbers put into its rows. What is copied is copied as numbers, so a
// result may have another width than what was read.
#![tactic(auto)]

ghost use Rattle.std.specs.Prelude.{◌≡◌, [], ◌∷◌, ◌++◌, ◌+◌, ◌*◌, ◌≤◌, ◌<◌, ◌^◌, length};
ghost use Rattle.std.proofs.lemmas.List.Edits.{sets};
ghost use Rattle.le.specs.Le.{bytes};
ghost use Rattle.le.specs.Rows.{Holds, row_at, puts};
ghost use Rattle.graph.specs.Lists.{range};
ghost use Rattle.graph.specs.Graph.{largest, sizes_fit};
ghost use Rattle.graph.specs.Form.{mark};
ghost use Rattle.form.specs.Form.{counts_of, told, Low, body_size};
ghost use Rattle.write.specs.Write.{format_for, fitted, result_size, headed};

use form::{Refusal, Sizes};
use le::Row;

// The sizes of a result, with the width of the version in which such a graph is stored: whatever width they come with.
pub fn sized(z: Sizes) -> Sizes
    ensures { result ≡ fitted (counts_of z) z.ports }
{
    Sizes {
        width: form::fitting_width(z),
        ..z
    }
}

// Whether no count and no port sum is above the largest limit: none is in a graph that fits version 1.
fn within_limits(y: Sizes) -> bool
    requires { y ≡ fitted (counts_of y) y.ports }
    ensures { result ≡ sizes_fit largest (counts_of y) y.ports }
{
    if y.width == form::form1().width {
        return true;
    }
    form::sizes_fit(form::form2(), y)
}

// The bytes of a form of these sizes.
fn form_bytes(y: Sizes) -> usize
    requires { Low y }
    ensures { result ≡ 5 + 5 * y.width + (y.nodes + y.edges) * 4 + body_size y * y.width }
{
    let body = form::body_row(y);
    let lists = y.sources + (y.targets + 2 * y.pairs);
    body.at + (2 * y.edges + y.ports + lists) * body.width
}

// Whether a result of these sizes can be written: 9 it passes a limit, 10 its form is longer than the room of the answer buffer; else the bytes of its form.
pub fn result_size(y: Sizes, room: usize) -> Result<usize, Refusal>
    requires { y ≡ fitted (counts_of y) y.ports }
    ensures { told result ≡ result_size y room }
{
    if !within_limits(y) {
        return Err(Refusal::ResultAboveLimit);
    }
    let bytes = form_bytes(y);
    if room < bytes {
        return Err(Refusal::NoRoom);
    }
    Ok(bytes)
}

// The mark and the version.
fn put_mark(out: &mut [u8], version: usize)
    requires { (5 ≤ length out.old) × (version < 65536) }
    ensures { out.new ≡ sets out.old 0 (mark ++ bytes 2 version) }
{
    out[..3].copy_from_slice(b"OHG");
    le::put2(out, 3, version as u32);
}

// The number of the version in which a graph of these sizes is stored.
fn version_of(y: Sizes) -> usize
    requires { y ≡ fitted (counts_of y) y.ports }
    ensures { result ≡ (format_for y).version }
{
    if y.width == form::form1().width {
        form::form1().version
    } else {
        form::form2().version
    }
}

// Two numbers of a row, one after the other.
pub fn put_two(out: &mut [u8], r: Row, k: usize, a: usize, b: usize)
    requires { Holds out.old r (k + 2) × (a < 2 ^ 32) × (b < 2 ^ 32) }
    ensures { out.new ≡ puts out.old r k (a ∷ b ∷ []) }
{
    le::put_number(out, r, k, a);
    le::put_number(out, r, k + 1, b);
}

// The numbers from, from + 1, .., n of them.
pub fn put_range(out: &mut [u8], r: Row, k: usize, from: usize, n: usize)
    requires { Holds out.old r (k + n) × (from + n ≤ 2 ^ 32) }
    ensures { out.new ≡ puts out.old r k (range from n) }
{
    for i in 0..n {
        le::put_number(out, r, k + i, from + i);
    }
}

// The five counts of a header, as a row.
fn put_counts(out: &mut [u8], y: Sizes)
    requires { Low y × (5 + 5 * y.width ≤ length out.old) }
    ensures { out.new ≡ puts out.old (row_at 5 y.width) 0 (y.nodes ∷ y.edges ∷ y.sources ∷ y.targets ∷ y.pairs ∷ []) }
{
    let r = Row {
        at: 5,
        width: y.width,
    };
    put_two(out, r, 0, y.nodes, y.edges);
    put_two(out, r, 2, y.sources, y.targets);
    le::put_number(out, r, 4, y.pairs);
}

// The header of a graph of these sizes, in the version in which it is stored.
pub fn put_header(out: &mut [u8], y: Sizes)
    requires { Low y × (y ≡ fitted (counts_of y) y.ports) × (5 + 5 * y.width ≤ length out.old) }
    ensures { out.new ≡ headed out.old y }
{
    put_mark(out, version_of(y));
    put_counts(out, y);
}
