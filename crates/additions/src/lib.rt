// Building in the tables of a room: what is new is stored behind the last entry of each table. A stored graph is loaded edge by edge in the same way.
#![tactic(auto)]

ghost use Rattle.std.specs.Prelude.{◌≡◌, [], ◌∷◌, ◌+◌, ◌*◌, ◌-◌, ◌<◌, ◌≤◌, ◌^◌, List, ℕ, length, get_or, set};
ghost use Rattle.std.proofs.lemmas.List.Edits.{sets};
ghost use Rattle.le.specs.Le.{Below, words};
ghost use Rattle.le.specs.Rows.{Holds, span};
ghost use Rattle.graph.specs.Graph.{largest};
ghost use Rattle.graph.specs.Build as build;
ghost use Rattle.graph.specs.Form.{edge_start};
ghost use Rattle.graph.specs.Lists.{flat};
ghost use Rattle.form.specs.Drawn.{graph_in};
ghost use Rattle.ledger.specs.Tables.{log_at, labels_at, room_ledger};
ghost use Rattle.ledger.specs.Ledger.{drawing, Sound, Draws, more, ports_of};
ghost use Rattle.additions.specs.Loaded.{without_edges, loaded_to};

use form::{Drawing, Sizes};
use le::Row;

// n numbers of a row as the words from `off` on.
fn put_words(room: &mut [u8], off: usize, s: &[u8], r: Row, j: usize, n: usize)
    requires { Holds s.now r (j + n) × (4 * (off + n) ≤ length room.old) }
    ensures { words room.new ≡ sets (words room.old) off (span s.now r j n) }
{
    let table = Row {
        at: 4 * off,
        width: 4,
    };
    le::copy_numbers(room, table, 0, s, r, j, n);
}

// Two words one after the other.
fn put_pair(room: &mut [u8], off: usize, a: u32, b: u32)
    requires { 4 * off + 8 ≤ length room.old }
    ensures { words room.new ≡ sets (words room.old) off (a ∷ b ∷ []) }
{
    le::set_word(room, off, a);
    le::set_word(room, off + 1, b);
}

// n ports of a half in the log, after so many: of each, from the first on, `node` gives its node.
fn log_ports<F: Fn(usize) -> usize>(room: &mut [u8], ports: usize, half: usize, n: usize, node: F)
    requires fits { (ports + n ≤ largest.most_ports) × (half < 2 ^ 32) × (room_ledger ≤ length room.old) }
    requires given { (k : ℕ) → k < n → F.pre node k }
    requires low { (k id : ℕ) → k < n → F.post node k id → id < 2 ^ 32 }
    ensures { (ids : List ℕ) → length ids ≡ n → ((k id : ℕ) → k < n → F.post node k id → id ≡ get_or ids k 0)
        → words room.new ≡ sets (words room.old) (log_at + 2 * ports) (flat (ports_of half ids)) }
{
    for k in 0..n {
        put_pair(
            room,
            ledger::LOG + 2 * (ports + k),
            half as u32,
            node(k) as u32,
        );
    }
}

// One more node.
pub fn add_node(room: &mut [u8], z: Sizes, label: u32)
    requires { Sound (words room.old) z × (z.nodes + 1 ≤ largest.most.nodes) × (room_ledger ≤ length room.old) }
    ensures { Draws (words room.new) (more z 1 0 0 0) (build.new_node label (drawing (words room.old) z)) }
{
    le::set_word(room, ledger::LABELS + z.nodes, label);
}

// One more edge: its sources and then its targets are numbers of a row.
pub fn add_edge(
    room: &mut [u8],
    z: Sizes,
    label: u32,
    s: &[u8],
    r: Row,
    j: usize,
    sources: usize,
    targets: usize,
)
    requires sound { Sound (words room.old) z × (z.edges + 1 ≤ largest.most.edges) × (z.ports + (sources + targets) ≤ largest.most_ports) × (room_ledger ≤ length room.old) }
    requires holds { Holds s.now r (j + sources + targets) × Below z.nodes (span s.now r j sources) × Below z.nodes (span s.now r (j + sources) targets) }
    ensures { Draws (words room.new) (more z 0 1 (sources + targets) 0)
        (build.new_edge label (span s.now r j sources) (span s.now r (j + sources) targets) (drawing (words room.old) z)) }
{
    let half = 2 * z.edges;
    le::set_word(room, ledger::EDGE_LABELS + z.edges, label);
    log_ports(room, z.ports, half, sources, |k| le::number(s, r, j + k));
    let from = j + sources;
    log_ports(room, z.ports + sources, half + 1, targets, |k| {
        le::number(s, r, from + k)
    });
}

// One more edge between new nodes, whose labels are numbers of a row.
pub fn add_operation(
    room: &mut [u8],
    z: Sizes,
    label: u32,
    s: &[u8],
    r: Row,
    sources: usize,
    targets: usize,
)
    requires sound { Sound (words room.old) z × (z.nodes + (sources + targets) ≤ largest.most.nodes) × (z.edges + 1 ≤ largest.most.edges) × (z.ports + (sources + targets) ≤ largest.most_ports)
        × (room_ledger ≤ length room.old) }
    requires holds { Holds s.now r (sources + targets) }
    ensures { Draws (words room.new) (more z (sources + targets) 1 (sources + targets) 0)
        (build.new_operation label (span s.now r 0 sources) (span s.now r sources targets) (drawing (words room.old) z)) }
{
    let half = 2 * z.edges;
    put_words(room, ledger::LABELS + z.nodes, s, r, 0, sources + targets);
    le::set_word(room, ledger::EDGE_LABELS + z.edges, label);
    log_ports(room, z.ports, half, sources, |k| z.nodes + k);
    let from = z.nodes + sources;
    log_ports(room, z.ports + sources, half + 1, targets, |k| from + k);
}

// One more pending pair.
pub fn add_pair(room: &mut [u8], z: Sizes, v: u32, w: u32)
    requires { Sound (words room.old) z × (z.pairs + 1 ≤ largest.most.pairs) × (v < z.nodes) × (w < z.nodes) × (room_ledger ≤ length room.old) }
    ensures { Draws (words room.new) (more z 0 0 0 1) (build.unify v w (drawing (words room.old) z)) }
{
    put_pair(room, ledger::PAIRS + 2 * z.pairs, v, w);
}

// One more node, and a port of a half that it is the node of.
fn add_port(room: &mut [u8], z: Sizes, half: usize, label: u32)
    requires { Sound (words room.old) z × (z.nodes + 1 ≤ largest.most.nodes) × (z.ports + 1 ≤ largest.most_ports) × (half < 2 ^ 32) × (room_ledger ≤ length room.old) }
    ensures { words room.new ≡ sets (set (words room.old) (labels_at + z.nodes) label) (log_at + 2 * z.ports) (half ∷ z.nodes ∷ []) }
{
    le::set_word(room, ledger::LABELS + z.nodes, label);
    put_pair(room, ledger::LOG + 2 * z.ports, half as u32, z.nodes as u32);
}

// One more node at the end of an edge's sources.
pub fn add_source(room: &mut [u8], z: Sizes, edge: usize, label: u32)
    requires { Sound (words room.old) z × (z.nodes + 1 ≤ largest.most.nodes) × (z.ports + 1 ≤ largest.most_ports) × (edge < z.edges) × (room_ledger ≤ length room.old) }
    ensures { Draws (words room.new) (more z 1 0 1 0) (build.add_edge_source edge label (drawing (words room.old) z)) }
{
    add_port(room, z, 2 * edge, label);
}

// One more node at the end of an edge's targets.
pub fn add_target(room: &mut [u8], z: Sizes, edge: usize, label: u32)
    requires { Sound (words room.old) z × (z.nodes + 1 ≤ largest.most.nodes) × (z.ports + 1 ≤ largest.most_ports) × (edge < z.edges) × (room_ledger ≤ length room.old) }
    ensures { Draws (words room.new) (more z 1 0 1 0) (build.add_edge_target edge label (drawing (words room.old) z)) }
{
    add_port(room, z, 2 * edge + 1, label);
}

// ---- loading

// The node labels, global lists and pairs of a stored graph.
fn load_lists(room: &mut [u8], drawing: Drawing<'_>)
    requires { room_ledger ≤ length room.old }
    ensures { Draws (words room.new) (without_edges drawing.entry.sizes 0 0) (loaded_to (graph_in drawing.entry) 0) }
{
    let z = drawing.sizes;
    let body = drawing.body();
    let lists = drawing.lists();
    put_words(
        room,
        ledger::LABELS,
        drawing.src,
        drawing.labels(),
        0,
        z.nodes,
    );
    put_words(room, ledger::SOURCES, drawing.src, body, lists, z.sources);
    put_words(
        room,
        ledger::TARGETS,
        drawing.src,
        body,
        lists + z.sources,
        z.targets,
    );
    put_words(
        room,
        ledger::PAIRS,
        drawing.src,
        body,
        lists + z.sources + z.targets,
        2 * z.pairs,
    );
}

// Edge i of a stored graph, which begins at index k; answered is where the next edge begins.
fn load_edge(room: &mut [u8], drawing: Drawing<'_>, i: usize, k: usize) -> usize
    requires stored { (i < drawing.sizes.edges) × (k ≡ edge_start (graph_in drawing).edges i) × (room_ledger ≤ length room.old) }
    requires draws { Draws (words room.old) (without_edges drawing.sizes i (k - 2 * i)) (loaded_to (graph_in drawing) i) }
    ensures { (result ≡ edge_start (graph_in drawing.entry).edges (i + 1))
        × Draws (words room.new) (without_edges drawing.entry.sizes (i + 1) (result - 2 * (i + 1))) (loaded_to (graph_in drawing.entry) (i + 1)) }
{
    let body = drawing.body();
    let e = form::edge_at(drawing.src, body, k);
    let label = le::number(drawing.src, drawing.labels(), drawing.sizes.nodes + i);
    let y = Sizes {
        edges: i,
        ports: k - 2 * i,
        ..drawing.sizes
    };
    add_edge(
        room,
        y,
        label as u32,
        drawing.src,
        body,
        e.first,
        e.sources,
        e.targets,
    );
    e.end
}

// A stored graph.
pub fn load(room: &mut [u8], drawing: Drawing<'_>)
    requires { room_ledger ≤ length room.old }
    ensures { Draws (words room.new) drawing.entry.sizes (graph_in drawing.entry) }
{
    load_lists(room, drawing);
    let mut k: usize = 0;
    for i in 0..drawing.sizes.edges {
        k = load_edge(room, drawing, i, k);
    }
}
