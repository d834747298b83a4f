// Reading: any bytes of any version of the stored form, with refusals 1 to 6 and 13.
#![tactic(auto)]

ghost use Rattle.std.specs.Prelude.{◌≡◌, ℕ, ◌≤◌, List, IfOk, length, drop};
ghost use Rattle.le.specs.Le.{Wide, numbers};
ghost use Rattle.graph.specs.Graph.{Edge, edge_entries, Within, Usable};
ghost use Rattle.graph.specs.Form.{header_bytes, edges_place};
ghost use Rattle.graph.specs.Answer.{answered};
ghost use Rattle.graph.specs.Read.{read_version, read_lists, read_body, read_in, read_as};
ghost use Rattle.graph.specs.Versions as versions;
ghost use Rattle.graph.specs.Versions.{format_numbered, read_fitting};
ghost use Rattle.form.specs.Form.{meant, counts_of, told, telling, reading};
ghost use Rattle.lists.specs.Reach.{reach};
ghost use Rattle.edges.specs.Walk.{Spans, StandAt};
ghost use Rattle.read.specs.Steps.{measured};

use edges::{bad_place, read_edges, refusal_at};
use form::{Drawing, Format, Refusal, Sizes};
use header::{format_numbered, read_counts, read_version};
use lists::reach_of;
use reader::labels_end;

// After the last edge: 5 another length than the counts call for, 6 an id not below the node count. Which id is bad is asked only where one is.
fn read_lists(
    s: &[u8],
    f: Format,
    z: Sizes,
    start: usize,
    ports: usize,
    at: usize,
    bound: usize,
) -> Result<Sizes, Refusal>
    requires { (at ≤ length s.now) × Within (meant f) (counts_of z) × Usable (meant f) × Spans f.width s.now start z.edges at }
    ensures { (body : List ℕ) (edges : List Edge) → length edges ≡ z.edges → length (edge_entries edges) ≡ ports → reach (edge_entries edges) ≡ bound
        → start ≡ edges_place (meant f) (counts_of z) → StandAt f.width s.now start edges at
        → told result ≡ measured f.width (read_lists (meant f) (length s.now) (counts_of z) body edges (drop at s.now)) }
{
    let width = f.width;
    let ids = z.sources + (z.targets + 2 * z.pairs);
    let bytes = ids * width;
    if s.len() - at != bytes {
        return Err(Refusal::WrongLength(s.len().min(at + bytes)));
    }
    if z.nodes < reach_of(s, at, ids, width, bound) {
        let place = bad_place(s, start, z.edges, at, ids, width, z.nodes);
        return Err(Refusal::UnknownNode(place));
    }
    Ok(Sizes { width, ports, ..z })
}

// After the header: 5 labels that don't all fit, then the edges, then the lists.
fn read_body(s: &[u8], f: Format, z: Sizes) -> Result<Sizes, Refusal>
    requires { (header_bytes (meant f) ≤ length s.now) × Within (meant f) (counts_of z) × Usable (meant f) }
    ensures { told result ≡ measured f.width (read_body (meant f) (length s.now) (counts_of z) (drop (header_bytes (meant f)) s.now)) }
{
    let header = 5 + 5 * f.width;
    let labels = z.nodes + z.edges;
    if s.len() - header < labels * 4 {
        return Err(Refusal::WrongLength(s.len()));
    }
    let start = labels_end(s, header, labels);
    match read_edges(s, f, start, z.edges) {
        Ok(r) => read_lists(s, f, z, start, r.ports, r.at, r.bound),
        Err(stop) => Err(refusal_at(s, f, stop)),
    }
}

// The same version with its width as one of the two numbers that it can be, so that the compiler makes the loops of reading anew for each of them.
fn known_width(f: Format) -> Format
    requires { Wide f.width }
    ensures { result ≡ f }
{
    if f.width == 2 {
        return Format { width: 2, ..f };
    }
    Format { width: 4, ..f }
}

// What bytes of this version are read as: 5, 4, 6, or the sizes of the graph.
fn read_in(s: &[u8], f: Format) -> Result<Sizes, Refusal>
    requires { Usable (meant f) }
    ensures { told result ≡ measured f.width (read_in (meant f) s.now) }
{
    let z = read_counts(s, f)?;
    read_body(s, known_width(f), z)
}

// What any bytes are read as by one that knows this version alone: 3 it is another.
pub fn read_as(src: &[u8], f: Format) -> Result<Sizes, Refusal>
    requires { Usable (meant f) }
    ensures { told result ≡ measured f.width (read_as (meant f) src.now) }
{
    let v = read_version(src)?;
    if v != f.version {
        return Err(Refusal::UnknownVersion);
    }
    read_in(src, f)
}

// What bytes of this version are read as: 13 the graph is stored in another one. No graph of version 1 is, so there nothing is asked.
fn read_fitting(src: &[u8], f: Format) -> Result<Sizes, Refusal>
    requires { (read_version src.now ≡ answered f.version) × (format_numbered f.version ≡ answered (meant f)) }
    ensures { told result ≡ measured f.width (read_fitting (meant f) src.now) }
{
    let z = read_in(src, f)?;
    if f.version == 1 {
        return Ok(z);
    }
    if form::fitting_width(z) != z.width {
        return Err(Refusal::UnfitVersion);
    }
    Ok(z)
}

// What any bytes are read as: the sizes of the graph, or the refusal.
fn sizes_read(src: &[u8]) -> Result<Sizes, Refusal>
    ensures { told result ≡ reading (versions.read src.now) }
{
    let v = read_version(src)?;
    let f = format_numbered(v)?;
    read_fitting(src, f)
}

// The graph that any bytes are read as, or the refusal.
pub fn read(src: &[u8]) -> Result<Drawing<'_>, Refusal>
    ensures sizes { telling (λ d. d.sizes) (told result) ≡ reading (versions.read src.now) }
    ensures source { IfOk result (λ d. d.src ≡ src.entry) }
{
    let sizes = sizes_read(src)?;
    Ok(Drawing { src, sizes })
}
