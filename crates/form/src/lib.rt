// What the stored form is in code: its versions, the sizes of a graph and the rows of numbers that follow from them, one walk over the edges, and why a call is
// refused. Nothing is decoded: a graph is its bytes and its sizes.
#![tactic(auto)]

ghost use Rattle.std.specs.Prelude.{◌≡◌, ℕ, ◌<◌, ◌≤◌, ◌+◌, ◌-◌, ◌^◌, get_or};
ghost use Rattle.graph.specs.Graph as graph;
ghost use Rattle.graph.specs.Graph.{counts_fit, sizes_fit};
ghost use Rattle.graph.specs.Versions.{fitting_sizes};
ghost use Rattle.le.specs.Le.{Wide};
ghost use Rattle.le.specs.Rows.{Holds};
ghost use Rattle.graph.specs.Answer.{answered};
ghost use Rattle.graph.specs.Versions.{read};
ghost use Rattle.form.specs.Form.{reading, meant, counts_of, body_of, labels_of, lists_from, edge_in, Low, meant_by};

use le::Row;

// Why a call was refused. Where a place is known it stands beside: of a damaged form the byte, of a list the index of its entry.
#[derive(Clone, Copy, Debug, PartialEq, Eq)]
pub enum Refusal {
    // The bytes end before a header does.
    TooShort(usize),
    NoMark,
    UnknownVersion,
    // A count, or the sum of all ports, is above its limit.
    AboveLimit(usize),
    // The bytes end too early or too late.
    WrongLength(usize),
    // An id is not below the node count.
    UnknownNode(usize),
    // An entry of a list is broken, or is no id of the graph.
    BadEntry(usize),
    PairPending,
    ResultAboveLimit,
    NoRoom,
    LabelsDiffer,
    BrokenStep,
    // The graph is stored in another version than it fits.
    UnfitVersion,
    UnknownKind,
    WrongPorts,
    // Of what is left every node is kept.
    NothingToChoose,
    BrokenRange,
}

impl Refusal {
    // The number by which a caller is told.
    pub fn number(self) -> u32
        ensures { (result ≡ (meant_by self).no) × (1 ≤ result) × (result ≤ 17) }
    {
        match self {
            Refusal::TooShort(_) => 1,
            Refusal::NoMark => 2,
            Refusal::UnknownVersion => 3,
            Refusal::AboveLimit(_) => 4,
            Refusal::WrongLength(_) => 5,
            Refusal::UnknownNode(_) => 6,
            Refusal::BadEntry(_) => 7,
            Refusal::PairPending => 8,
            Refusal::ResultAboveLimit => 9,
            Refusal::NoRoom => 10,
            Refusal::LabelsDiffer => 11,
            Refusal::BrokenStep => 12,
            Refusal::UnfitVersion => 13,
            Refusal::UnknownKind => 14,
            Refusal::WrongPorts => 15,
            Refusal::NothingToChoose => 16,
            Refusal::BrokenRange => 17,
        }
    }

    // The place, 0 where there is none. A version's number stands at byte 3.
    pub fn place(self) -> usize
        ensures { result ≡ (meant_by self).place }
    {
        match self {
            Refusal::TooShort(place)
            | Refusal::AboveLimit(place)
            | Refusal::WrongLength(place)
            | Refusal::UnknownNode(place)
            | Refusal::BadEntry(place) => place,
            Refusal::UnknownVersion => 3,
            _ => 0,
        }
    }
}

// What a call answers: its two numbers.
#[derive(Clone, Copy)]
pub struct Done {
    pub a: usize,
    pub b: usize,
}

// A version of the stored form: its number, the bytes of a count or an id, and the most of each item.
#[derive(Clone, Copy)]
pub struct Format {
    pub version: usize,
    pub width: usize,
    pub nodes: usize,
    pub edges: usize,
    pub ports: usize,
    pub sources: usize,
    pub targets: usize,
    pub pairs: usize,
}

// Version 1.
pub fn form1() -> Format
    ensures { meant result ≡ graph.form1 }
{
    Format {
        version: 1,
        width: 2,
        nodes: graph::MAX_NODES_1,
        edges: graph::MAX_EDGES_1,
        ports: graph::MAX_PORTS_1,
        sources: graph::MAX_SOURCES_1,
        targets: graph::MAX_TARGETS_1,
        pairs: graph::MAX_PAIRS_1,
    }
}

// Version 2, whose limits are the largest.
pub fn form2() -> Format
    ensures { meant result ≡ graph.form2 }
{
    Format {
        version: 2,
        width: 4,
        nodes: graph::MAX_NODES,
        edges: graph::MAX_EDGES,
        ports: graph::MAX_PORTS,
        sources: graph::MAX_SOURCES,
        targets: graph::MAX_TARGETS,
        pairs: graph::MAX_PAIRS,
    }
}

// How large a graph is, and the bytes of a count or an id in its form. The places of all that is stored follow from it.
#[derive(Clone, Copy)]
pub struct Sizes {
    pub width: usize,
    pub nodes: usize,
    pub edges: usize,
    pub ports: usize,
    pub sources: usize,
    pub targets: usize,
    pub pairs: usize,
}

// The sizes of a graph with nothing in it.
pub const NOTHING: Sizes = Sizes {
    width: 0,
    nodes: 0,
    edges: 0,
    ports: 0,
    sources: 0,
    targets: 0,
    pairs: 0,
};

// Whether no count is above its limit in a version.
pub fn counts_fit(f: Format, z: Sizes) -> bool
    ensures { result ≡ counts_fit (meant f) (counts_of z) }
{
    if f.nodes < z.nodes {
        return false;
    }
    if f.edges < z.edges {
        return false;
    }
    if f.sources < z.sources {
        return false;
    }
    if f.targets < z.targets {
        return false;
    }
    z.pairs <= f.pairs
}

// Whether no count and no port sum is above its limit in a version.
pub fn sizes_fit(f: Format, z: Sizes) -> bool
    ensures { result ≡ sizes_fit (meant f) (counts_of z) z.ports }
{
    if f.ports < z.ports {
        return false;
    }
    counts_fit(f, z)
}

// The width of the version in which a graph of these sizes is stored.
pub fn fitting_width(z: Sizes) -> usize
    ensures { result ≡ (fitting_sizes (counts_of z) z.ports).width }
{
    if sizes_fit(form1(), z) {
        form1().width
    } else {
        form2().width
    }
}

// The highest number that a width has room for.
pub fn highest(width: usize) -> usize
    requires { Wide width }
    ensures { result ≡ 256 ^ width - 1 }
{
    if width == 2 { 65535 } else { 4294967295 }
}

// The row of all labels: those of the nodes, then those of the edges.
pub fn label_row(z: Sizes) -> Row
    requires { Low z }
    ensures { result ≡ labels_of z }
{
    Row {
        at: 5 + 5 * z.width,
        width: 4,
    }
}

// The row of all counts and ids: edge by edge its two counts, its sources and its targets; then the global sources, the global targets and the pairs.
pub fn body_row(z: Sizes) -> Row
    requires { Low z }
    ensures { result ≡ body_of z }
{
    Row {
        at: 5 + 5 * z.width + (z.nodes + z.edges) * 4,
        width: z.width,
    }
}

// A stored graph: bytes that were read as one, and its sizes.
#[derive(Clone, Copy)]
pub struct Drawing<'a> {
    pub src: &'a [u8],
    pub sizes: Sizes,
    ghost is_read: { answered sizes ≡ reading (read src.now) },
    ghost are_bytes: { (i : ℕ) → get_or src.now i 0 < 256 },
    // so that no sum of sizes is near the end of its field
    ghost few: { (sizes.width ≤ 4) × (sizes.nodes < 2 ^ 32) × (sizes.edges < 2 ^ 32) × (sizes.ports < 2 ^ 32) × (sizes.sources < 2 ^ 32) × (sizes.targets < 2 ^ 32) × (sizes.pairs < 2 ^ 32) },
}

impl<'a> Drawing<'a> {
    // The row of all labels.
    pub fn labels(self) -> Row
        ensures { result ≡ labels_of self.entry.sizes }
    {
        label_row(self.sizes)
    }

    // The row of all counts and ids.
    pub fn body(self) -> Row
        ensures { result ≡ body_of self.entry.sizes }
    {
        body_row(self.sizes)
    }

    // The index in that row where the global lists begin.
    pub fn lists(self) -> usize
        ensures { (result ≡ lists_from self.entry.sizes) × (result < 2 ^ 34) }
    {
        2 * self.sizes.edges + self.sizes.ports
    }
}

// An edge where it stands in the row: how many sources and targets it has, the index of its first id, and the index after its last.
#[derive(Clone, Copy)]
pub struct EdgeAt {
    pub sources: usize,
    pub targets: usize,
    pub first: usize,
    pub end: usize,
}

// The edge at index k of the row.
pub fn edge_at(src: &[u8], r: Row, k: usize) -> EdgeAt
    requires { Holds src.now r (k + 2) }
    ensures { result ≡ edge_in src.now r k }
{
    let sources = le::number(src, r, k);
    let targets = le::number(src, r, k + 1);
    let first = k + 2;
    EdgeAt {
        sources,
        targets,
        first,
        end: first + sources + targets,
    }
}
