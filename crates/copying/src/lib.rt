// What of the merged graph stands in the result before any entry is rewritten: one pass counts the entries of listed nodes, which gives the result's sizes; and the merged
// graph is copied to where it stands in the result.
#![tactic(auto)]

ghost use Rattle.std.specs.Prelude.{◌≡◌, List, ◌++◌, ℕ, ◌+◌, ◌*◌, ◌<◌, ◌≤◌, length, replicate};
ghost use Rattle.le.specs.Le.{Below, words};
ghost use Rattle.le.specs.Rows.{Holds, puts};
ghost use Rattle.graph.specs.Lists.{keep, joined};
ghost use Rattle.graph.specs.Graph.{spider, edge_entries};
ghost use Rattle.graph.specs.Form.{edge_row};
ghost use Rattle.graph.specs.Merge.{looked};
ghost use Rattle.graph.specs.Versions.{fitting};
ghost use Rattle.form.specs.Form.{sizes_of, Low, labels_of, body_of, lists_from};
ghost use Rattle.form.specs.Drawn.{graph_in};
ghost use Rattle.write.specs.Write.{Room};
ghost use Rattle.quotient.specs.Merging.{Mapped};
ghost use Rattle.links.specs.Links.{cells, cell_count, is_listed};
ghost use Rattle.rewriting.specs.Rewriting.{ids_at, Ids, spidered, fronted, Plan};
ghost use Rattle.copying.specs.Merged.{merged_of, spidered_of, fresh_of, LooksUp, Ready, copied_of};

use form::{Drawing, Sizes};
use le::Row;

// Where the table of links begins in the room: behind the map of merging.
pub const TABLE: usize = 4 * graph::MAX_NODES;

// The edge label that says spider.
const SPIDER: usize = 4294967295;

// How many of the n entries from index j on are of listed nodes: `node` gives the node that an id became.
fn count_part<F: Fn(usize) -> usize>(
    drawing: Drawing<'_>,
    j: usize,
    n: usize,
    table: &[u8],
    node: &F,
) -> usize
    requires ids { Ids drawing.src.now drawing.sizes drawing.sizes.nodes j n }
    requires given { (id : ℕ) → id < drawing.sizes.nodes → F.pre node.now id }
    requires low { (id v : ℕ) → id < drawing.sizes.nodes → F.post node.now id v → v * 4 < cell_count table.now }
    ensures { (result ≤ n) × ((nodes : ℕ) (map : List ℕ) → LooksUp (F.post node.now) drawing.entry.sizes.nodes map nodes
        → result ≡ length (keep (is_listed nodes (cells table.now)) (looked map (ids_at drawing.entry.src.now drawing.entry.sizes j n)))) }
{
    let row = drawing.body();
    let mut count: usize = 0;
    for i in 0..n {
        let id = le::number(drawing.src, row, j + i);
        count += links::one_if_listed(table, node(id));
    }
    count
}

// How many entries of the edges are of listed nodes.
fn count_edges<F: Fn(usize) -> usize>(drawing: Drawing<'_>, table: &[u8], node: &F) -> usize
    requires given { (id : ℕ) → id < drawing.sizes.nodes → F.pre node.now id }
    requires low { (id v : ℕ) → id < drawing.sizes.nodes → F.post node.now id v → v * 4 < cell_count table.now }
    ensures { (result ≤ drawing.entry.sizes.ports) × ((nodes : ℕ) (map : List ℕ) → LooksUp (F.post node.now) drawing.entry.sizes.nodes map nodes
        → result ≡ length (keep (is_listed nodes (cells table.now)) (looked map (edge_entries (graph_in drawing.entry).edges)))) }
{
    let row = drawing.body();
    let mut k: usize = 0;
    let mut count: usize = 0;
    for i in 0..drawing.sizes.edges {
        let e = form::edge_at(drawing.src, row, k);
        count += count_part(drawing, e.first, e.sources + e.targets, table, node);
        k = e.end;
    }
    count
}

// How many entries of the edges and of the global lists are of listed nodes.
fn count_entries<F: Fn(usize) -> usize>(drawing: Drawing<'_>, table: &[u8], node: F) -> usize
    requires given { (id : ℕ) → id < drawing.sizes.nodes → F.pre node id }
    requires low { (id v : ℕ) → id < drawing.sizes.nodes → F.post node id v → v * 4 < cell_count table.now }
    ensures { (result ≤ drawing.entry.sizes.ports + (drawing.entry.sizes.sources + drawing.entry.sizes.targets))
        × ((nodes : ℕ) (map : List ℕ) → LooksUp (F.post node) drawing.entry.sizes.nodes map nodes
        → result ≡ length (keep (is_listed nodes (cells table.now)) (looked map (edge_entries (graph_in drawing.entry).edges)))
        + length (keep (is_listed nodes (cells table.now)) (looked map ((graph_in drawing.entry).sources ++ (graph_in drawing.entry).targets)))) }
{
    let lists = drawing.lists();
    let global = drawing.sizes.sources + drawing.sizes.targets;
    count_edges(drawing, table, &node) + count_part(drawing, lists, global, table, &node)
}

// How many entries of the merged graph are of nodes that the table behind the map lists: each gets a fresh node. The ids are counted as they are where nothing is to be merged.
fn count_fresh(drawing: Drawing<'_>, room: &[u8]) -> usize
    requires { (nodes : ℕ) × Ready drawing nodes room.now }
    ensures { (result ≤ drawing.entry.sizes.ports + (drawing.entry.sizes.sources + drawing.entry.sizes.targets)) × ((nodes : ℕ) → Ready drawing.entry nodes room.now → result ≡ fresh_of drawing.entry nodes room.now) }
{
    let at = TABLE;
    if drawing.sizes.pairs == 0 {
        return count_entries(drawing, &room[at..], |id| id);
    }
    count_entries(drawing, &room[at..], |id| le::word(room, id) as usize)
}

// The sizes of the merged graph, which has so many nodes, spiderized at the nodes that the table behind the map lists.
pub fn result_sizes(drawing: Drawing<'_>, nodes: usize, room: &[u8]) -> Sizes
    requires { Ready drawing nodes room.now }
    ensures { result ≡ sizes_of (fitting (spidered_of drawing.entry nodes room.now)) (spidered_of drawing.entry nodes room.now) }
{
    let z = drawing.sizes;
    let fresh = count_fresh(drawing, room);
    let at = TABLE;
    let spiders = 2 * links::count_listed(&room[at..], nodes);
    write::sized(Sizes {
        nodes: nodes + fresh,
        edges: z.edges + spiders,
        ports: z.ports + (spiders + fresh),
        pairs: 0,
        ..z
    })
}

// The label of n spiders, into a row from index k on.
fn put_spider_labels(out: &mut [u8], r: Row, k: usize, n: usize)
    requires { Holds out.old r (k + n) }
    ensures { out.new ≡ puts out.old r k (replicate n spider) }
{
    for i in 0..n {
        le::put_number(out, r, k + i, SPIDER);
    }
}

// The counts and ids of the edges and of the global lists, as they were read, to where they stand in the result.
fn put_entries(drawing: Drawing<'_>, y: Sizes, out: &mut [u8])
    requires { Room out.old y × (lists_from drawing.sizes ≤ lists_from y) × (drawing.sizes.sources ≡ y.sources) × (drawing.sizes.targets ≡ y.targets) }
    ensures { out.new ≡ puts (puts out.old (body_of y) 0 (joined edge_row (graph_in drawing.entry).edges)) (body_of y) (lists_from y)
        ((graph_in drawing.entry).sources ++ (graph_in drawing.entry).targets) }
{
    let z = drawing.sizes;
    let from = drawing.body();
    let to = form::body_row(y);
    let rows = drawing.lists();
    le::copy_numbers(out, to, 0, drawing.src, from, 0, rows);
    le::copy_numbers(
        out,
        to,
        2 * y.edges + y.ports,
        drawing.src,
        from,
        rows,
        z.sources + z.targets,
    );
}

// The labels of the merged graph's nodes: in one run where nothing is to be merged.
fn put_node_labels(drawing: Drawing<'_>, y: Sizes, room: &[u8], out: &mut [u8])
    requires { Mapped drawing room.now × Low y × Holds out.old (labels_of y) (length (merged_of drawing).labels) }
    ensures { out.new ≡ puts out.old (labels_of y) 0 (merged_of drawing.entry).labels }
{
    let z = drawing.sizes;
    if z.pairs == 0 {
        let from = drawing.labels();
        let to = form::label_row(y);
        le::copy_numbers(out, to, 0, drawing.src, from, 0, z.nodes);
        return;
    }
    quotient::put_class_labels(drawing, room, out, y);
}

// The header of the result, and all its labels but those of the fresh nodes, which the rewriting puts: those of the merged graph's nodes, of the edges and of the spiders.
fn put_front(drawing: Drawing<'_>, y: Sizes, room: &[u8], out: &mut [u8])
    requires { Mapped drawing room.now × Room out.old y × ((nodes : ℕ) × (table : List ℕ) × Plan (merged_of drawing) nodes y table) }
    ensures { (nodes : ℕ) (table : List ℕ) → Plan (merged_of drawing.entry) nodes y table
        → out.new ≡ fronted out.old y (merged_of drawing.entry) (spidered (merged_of drawing.entry) nodes (cells table)) }
{
    let z = drawing.sizes;
    write::put_header(out, y);
    put_node_labels(drawing, y, room, out);
    let from = drawing.labels();
    let to = form::label_row(y);
    le::copy_numbers(out, to, y.nodes, drawing.src, from, z.nodes, z.edges);
    put_spider_labels(out, to, y.nodes + z.edges, y.edges - z.edges);
}

// The global lists, renamed, to where they stand in the result.
fn put_renamed_lists(drawing: Drawing<'_>, y: Sizes, room: &[u8], out: &mut [u8])
    requires { (4 * drawing.sizes.nodes ≤ length room.now) × Room out.old y × (drawing.sizes.sources ≡ y.sources) × (drawing.sizes.targets ≡ y.targets) }
    ensures { out.new ≡ puts out.old (body_of y) (lists_from y) (looked (words room.now) ((graph_in drawing.entry).sources ++ (graph_in drawing.entry).targets)) }
{
    let z = drawing.sizes;
    let from = drawing.body();
    let to = form::body_row(y);
    let j = drawing.lists();
    let k = 2 * y.edges + y.ports;
    for i in 0..z.sources + z.targets {
        let id = le::number(drawing.src, from, j + i);
        let class = le::word(room, id) as usize;
        le::put_number(out, to, k + i, class);
    }
}

// The counts and renamed ids of the edges and of the global lists, to where they stand in the result.
fn put_merged_entries(drawing: Drawing<'_>, y: Sizes, room: &[u8], out: &mut [u8])
    requires { Mapped drawing room.now × Room out.old y × (lists_from drawing.sizes ≤ lists_from y) × (drawing.sizes.sources ≡ y.sources) × (drawing.sizes.targets ≡ y.targets) }
    ensures { out.new ≡ puts (puts out.old (body_of y) 0 (joined edge_row (merged_of drawing.entry).edges)) (body_of y) (lists_from y)
        ((merged_of drawing.entry).sources ++ (merged_of drawing.entry).targets) }
{
    let to = form::body_row(y);
    quotient::put_renamed_edges(drawing, room, out, to);
    put_renamed_lists(drawing, y, room, out);
}

// The header of the result, and of the merged graph all that stands in it before any entry is rewritten: its counts and ids in runs where nothing is to be merged.
pub fn put_copied(drawing: Drawing<'_>, y: Sizes, room: &[u8], out: &mut [u8])
    requires { Mapped drawing room.now × Room out.old y × ((nodes : ℕ) × (table : List ℕ) × Plan (merged_of drawing) nodes y table) }
    ensures { (nodes : ℕ) (table : List ℕ) → Plan (merged_of drawing.entry) nodes y table
        → out.new ≡ copied_of out.old y (merged_of drawing.entry) (spidered (merged_of drawing.entry) nodes (cells table)) }
{
    put_front(drawing, y, room, out);
    if drawing.sizes.pairs == 0 {
        put_entries(drawing, y, out);
        return;
    }
    put_merged_entries(drawing, y, room, out);
}
