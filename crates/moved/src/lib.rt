// The map that says where each node goes, and what is left is written with its new ids: the graph without its marked nodes.
#![tactic(auto)]

ghost use Rattle.std.specs.Prelude.{◌≡◌, cond, ℕ, ◌+◌, ◌*◌, ◌-◌, ◌<◌, ◌≤◌, ◌^◌, [], ◌∷◌, map as each, length, true, false, MatchOption};
ghost use Rattle.le.specs.Le.{Below};
ghost use Rattle.le.specs.Rows.{Holds, entry, span, puts};
ghost use Rattle.graph.specs.Lists.{joined, paired, flat};
ghost use Rattle.graph.specs.Form.{edge_row, label_row, body};
ghost use Rattle.graph.specs.Versions.{fitting};
ghost use Rattle.graph.specs.Delete.{new_id, renamed, renamed_edge, renamed_pairs, without_nodes};
ghost use Rattle.form.specs.Form.{sizes_of, body_of};
ghost use Rattle.form.specs.Drawn.{graph_in};
ghost use Rattle.write.specs.Write.{Put, Room, drawn};
ghost use Rattle.gone.specs.Marks.{marked};
ghost use Rattle.moved.specs.Places.{edge_of, map_of, places_of, gone_in, Mapped};

use form::{Drawing, EdgeAt, Sizes};
use le::Row;

// Where a node goes: its number of the map, where `next` of the nodes before it stay. Answers how many stay with it.
fn put_place(room: &[u8], id: usize, map: &mut [u8], r: Row, next: usize) -> usize
    requires { (id < length room.now) × Holds map.old r (id + 1) × (next < 2 ^ 32) }
    ensures { (n : ℕ) → id < n → (map.new ≡ puts map.old r id (cond (marked room.now n id) (256 ^ r.width - 1) next ∷ [])) × (result ≡ next + cond (marked room.now n id) 0 1) }
{
    if room[id] != 0 {
        le::put_number(map, r, id, form::highest(r.width));
        return next;
    }
    le::put_number(map, r, id, next);
    next + 1
}

// The map of n nodes.
pub fn put_map(room: &[u8], n: usize, map: &mut [u8], r: Row)
    requires { (n ≤ length room.now) × (n < 2 ^ 32) × Holds map.old r n }
    ensures { map.new ≡ puts map.old r 0 (places_of r.width (marked room.now n) n) }
{
    let mut next: usize = 0;
    for i in 0..n {
        next = put_place(room, i, map, r, next);
    }
}

// A stored graph and the map of its nodes, by which those that stay are renumbered.
#[derive(Clone, Copy)]
struct Renumbered<'a> {
    drawing: Drawing<'a>,
    map: &'a [u8],
    ghost inside: { drawing.sizes.nodes * drawing.sizes.width ≤ length map.now },
    // what the map has of a node that stays
    ghost places: { (i : ℕ) → i < drawing.sizes.nodes → gone_in drawing.sizes map.now i ≡ false → entry map.now (map_of drawing.sizes) i ≡ new_id (gone_in drawing.sizes map.now) i },
}

impl<'a> Renumbered<'a> {
    // A node's new id, if it stays.
    fn new_id(self, id: usize) -> Option<usize>
        requires { id < self.drawing.sizes.nodes }
        ensures { MatchOption result (gone_in self.entry.drawing.sizes self.entry.map.now id ≡ true) (λ place. (gone_in self.entry.drawing.sizes self.entry.map.now id ≡ false) × (place ≡ new_id (gone_in self.entry.drawing.sizes self.entry.map.now) id) × (place < 2 ^ 32)) }
    {
        let r = Row {
            at: 0,
            width: self.drawing.sizes.width,
        };
        let place = le::number(self.map, r, id);
        if place == form::highest(r.width) {
            None
        } else {
            Some(place)
        }
    }
}

// A node's new id, put if it stays. Answers where the next one goes.
fn put_moved(by: Renumbered<'_>, id: usize, out: &mut [u8], to: Row, j: usize) -> usize
    requires { (id < by.drawing.sizes.nodes) × Holds out.old to (j + length (renamed (gone_in by.drawing.sizes by.map.now) (id ∷ []))) }
    ensures { Put out.old to j (renamed (gone_in by.entry.drawing.sizes by.entry.map.now) (id ∷ [])) out.new result }
{
    match by.new_id(id) {
        None => j,
        Some(place) => {
            le::put_number(out, to, j, place);
            j + 1
        }
    }
}

// The new ids of n nodes whose ids stand from number k on, of those that stay.
fn put_moved_ids(
    by: Renumbered<'_>,
    k: usize,
    n: usize,
    out: &mut [u8],
    to: Row,
    first: usize,
) -> usize
    requires { Holds by.drawing.src.now (body_of by.drawing.sizes) (k + n) × Below by.drawing.sizes.nodes (span by.drawing.src.now (body_of by.drawing.sizes) k n) × Holds out.old to (first + length (renamed (gone_in by.drawing.sizes by.map.now) (span by.drawing.src.now (body_of by.drawing.sizes) k n))) }
    ensures { Put out.old to first (renamed (gone_in by.entry.drawing.sizes by.entry.map.now) (span by.entry.drawing.src.now (body_of by.entry.drawing.sizes) k n)) out.new result }
{
    let body = by.drawing.body();
    let mut j = first;
    for i in 0..n {
        let id = le::number(by.drawing.src, body, k + i);
        j = put_moved(by, id, out, to, j);
    }
    j
}

// An edge with its new ids. Its counts are written last, since the lists tell them. Both lists are one loop, and it is called from one place:
// so it is compiled into its caller.
fn put_moved_edge(by: Renumbered<'_>, e: EdgeAt, out: &mut [u8], to: Row, j: usize) -> usize
    requires mapped { Holds by.drawing.src.now (body_of by.drawing.sizes) (e.first + (e.sources + e.targets)) × Below by.drawing.sizes.nodes (span by.drawing.src.now (body_of by.drawing.sizes) e.first (e.sources + e.targets)) }
    requires targets_bound { (e.sources + e.targets < 2 ^ 32) × Holds out.old to (j + length (edge_row (renamed_edge (gone_in by.drawing.sizes by.map.now) (edge_of by.drawing.src.now by.drawing.sizes e)))) }
    ensures { Put out.old to j (edge_row (renamed_edge (gone_in by.entry.drawing.sizes by.entry.map.now) (edge_of by.entry.drawing.src.now by.entry.drawing.sizes e))) out.new result }
{
    let body = by.drawing.body();
    let mut middle = j + 2;
    let mut end = j + 2;
    for i in 0..e.sources + e.targets {
        let id = le::number(by.drawing.src, body, e.first + i);
        end = put_moved(by, id, out, to, end);
        if i < e.sources {
            middle = end;
        }
    }
    write::put_two(out, to, j, middle - (j + 2), end - middle);
    end
}

// The edges with their new ids.
fn put_moved_edges(by: Renumbered<'_>, out: &mut [u8], to: Row) -> usize
    requires { Holds out.old to (length (joined edge_row (each (renamed_edge (gone_in by.drawing.sizes by.map.now)) (graph_in by.drawing).edges))) }
    ensures { Put out.old to 0 (joined edge_row (each (renamed_edge (gone_in by.entry.drawing.sizes by.entry.map.now)) (graph_in by.entry.drawing).edges)) out.new result }
{
    let body = by.drawing.body();
    let mut k: usize = 0;
    let mut j: usize = 0;
    for i in 0..by.drawing.sizes.edges {
        let e = form::edge_at(by.drawing.src, body, k);
        let next = e.end;
        j = put_moved_edge(by, e, out, to, j);
        k = next;
    }
    j
}

// The pair at number k with its new ids, if both ends stay. Answers where the next one goes.
fn put_moved_pair(by: Renumbered<'_>, k: usize, out: &mut [u8], to: Row, j: usize) -> usize
    requires { Holds by.drawing.src.now (body_of by.drawing.sizes) (k + 2) × Below by.drawing.sizes.nodes (span by.drawing.src.now (body_of by.drawing.sizes) k 2) × Holds out.old to (j + length (flat (renamed_pairs (gone_in by.drawing.sizes by.map.now) (paired (span by.drawing.src.now (body_of by.drawing.sizes) k 2))))) }
    ensures { Put out.old to j (flat (renamed_pairs (gone_in by.entry.drawing.sizes by.entry.map.now) (paired (span by.entry.drawing.src.now (body_of by.entry.drawing.sizes) k 2)))) out.new result }
{
    let body = by.drawing.body();
    let first = le::number(by.drawing.src, body, k);
    let second = le::number(by.drawing.src, body, k + 1);
    match by.new_id(first) {
        None => j,
        Some(a) => match by.new_id(second) {
            None => j,
            Some(b) => {
                write::put_two(out, to, j, a, b);
                j + 2
            }
        },
    }
}

// The n pairs from number k on, with their new ids, of those of which both ends stay.
fn put_moved_pairs(
    by: Renumbered<'_>,
    k: usize,
    n: usize,
    out: &mut [u8],
    to: Row,
    first: usize,
) -> usize
    requires { Holds by.drawing.src.now (body_of by.drawing.sizes) (k + 2 * n) × Below by.drawing.sizes.nodes (span by.drawing.src.now (body_of by.drawing.sizes) k (2 * n)) × Holds out.old to (first + length (flat (renamed_pairs (gone_in by.drawing.sizes by.map.now) (paired (span by.drawing.src.now (body_of by.drawing.sizes) k (2 * n)))))) }
    ensures { Put out.old to first (flat (renamed_pairs (gone_in by.entry.drawing.sizes by.entry.map.now) (paired (span by.entry.drawing.src.now (body_of by.entry.drawing.sizes) k (2 * n))))) out.new result }
{
    let mut j = first;
    for i in 0..n {
        j = put_moved_pair(by, k + 2 * i, out, to, j);
    }
    j
}

// A stored graph without its marked nodes, which has sizes y, written by the map of the marks.
pub fn put_without_nodes(drawing: Drawing<'_>, y: Sizes, room: &[u8], map: &[u8], out: &mut [u8])
    requires stored { Mapped drawing.sizes map.now × Room out.old y × (drawing.sizes.nodes ≤ length room.now) × (marked room.now drawing.sizes.nodes ≡ gone_in drawing.sizes map.now) }
    requires y_value { y ≡ sizes_of (fitting (without_nodes (gone_in drawing.sizes map.now) (graph_in drawing))) (without_nodes (gone_in drawing.sizes map.now) (graph_in drawing)) }
    ensures { out.new ≡ drawn out.old y (label_row (without_nodes (gone_in drawing.entry.sizes map.now) (graph_in drawing.entry))) (body (without_nodes (gone_in drawing.entry.sizes map.now) (graph_in drawing.entry))) }
{
    let z = drawing.sizes;
    let by = Renumbered { drawing, map };
    let labels = drawing.labels();
    let new_labels = form::label_row(y);
    let new_body = form::body_row(y);
    let lists = drawing.lists();
    let ids = z.sources + z.targets;
    write::put_header(out, y);
    let nodes = left::put_left_labels(drawing.src, z, 0, z.nodes, room, out, y, 0);
    le::copy_numbers(
        out,
        new_labels,
        nodes,
        drawing.src,
        labels,
        z.nodes,
        z.edges,
    );
    let sources = put_moved_edges(by, out, new_body);
    let pairs = put_moved_ids(by, lists, ids, out, new_body, sources);
    put_moved_pairs(by, lists + ids, z.pairs, out, new_body, pairs);
}
