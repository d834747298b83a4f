// The header of a stored form: its mark and version, with refusals 1 to 3, and its counts, with 5 and 4.
#![tactic(auto)]

ghost use Rattle.std.specs.Prelude.{◌≡◌, ◌≤◌, length, take};
ghost use Rattle.le.specs.Le.{Wide};
ghost use Rattle.graph.specs.Lists.{same};
ghost use Rattle.graph.specs.Form.{mark};
ghost use Rattle.graph.specs.Read.{read_version, read_counts};
ghost use Rattle.graph.specs.Versions.{format_numbered};
ghost use Rattle.form.specs.Form.{meant, counts_of, told};
ghost use Rattle.header.specs.Header.{versioned, count_above, header_read};

use form::{Format, Refusal, Sizes};
use reader::counts_at;

// Whether the bytes begin with `OHG`.
fn marked(s: &[u8]) -> bool
    requires { 3 ≤ length s.now }
    ensures { result ≡ same (take 3 s.now) mark }
{
    s.starts_with(b"OHG")
}

// What every version begins with: 1 fewer than 15 bytes, 2 no mark, or the version's number.
pub fn read_version(s: &[u8]) -> Result<usize, Refusal>
    ensures { told result ≡ read_version s.now }
{
    if s.len() < 15 {
        return Err(Refusal::TooShort(s.len()));
    }
    if !marked(s) {
        return Err(Refusal::NoMark);
    }
    Ok(le::get2(s, 3) as usize)
}

// The version of this number: 3 it is neither.
pub fn format_numbered(version: usize) -> Result<Format, Refusal>
    ensures { told result ≡ versioned (format_numbered version) }
{
    if version == 1 {
        return Ok(form::form1());
    }
    if version == 2 {
        return Ok(form::form2());
    }
    Err(Refusal::UnknownVersion)
}

// Which count of a header is the first above its limit, where one is: 0 the nodes, 1 the edges, 2 the global sources, 3 the global targets, 4 the pairs.
fn count_above(f: Format, z: Sizes) -> usize
    ensures { result ≡ count_above (meant f) (counts_of z) }
{
    if f.nodes < z.nodes {
        return 0;
    }
    if f.edges < z.edges {
        return 1;
    }
    if f.sources < z.sources {
        return 2;
    }
    if f.targets < z.targets {
        return 3;
    }
    4
}

// The rest of a header: 5 it is cut short, 4 a count is above its limit, or its counts. Which count is above is asked only where one is.
pub fn read_counts(s: &[u8], f: Format) -> Result<Sizes, Refusal>
    requires { Wide f.width }
    ensures { told result ≡ header_read f.width (read_counts (meant f) s.now) }
{
    let width = f.width;
    if s.len() < 5 + 5 * width {
        return Err(Refusal::WrongLength(s.len()));
    }
    let z = counts_at(s, width);
    if !form::counts_fit(f, z) {
        let k = count_above(f, z);
        return Err(Refusal::AboveLimit(5 + k * width));
    }
    Ok(z)
}
