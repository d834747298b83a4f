// The incidence graph of a stored drawing, in the tables of a lent room: the degree of each half, and where its list starts and how long it is. The lists of
// an edge are its ids in the form; those of the nodes are counted, laid out one after the other, and filled.
#![tactic(auto)]

ghost use Rattle.std.specs.Prelude.{◌≡◌, ℕ, ◌+◌, ◌*◌, ◌<◌, ◌≤◌, ◌^◌, length, get_or, take};
ghost use Rattle.le.specs.Le.{words};
ghost use Rattle.le.specs.Rows.{Holds};
ghost use Rattle.choice.specs.Arcs.{In};
ghost use Rattle.graph.specs.Form.{edge_start};
ghost use Rattle.form.specs.Drawn.{graph_in};
ghost use Rattle.halves.specs.Halves.{mate, sum_to};
ghost use Rattle.tables.specs.Tables.{most_vertices, most_ports, lists_at, room_removal};
ghost use Rattle.removal.specs.Room.{source, start_of, count_of, form_list, AllLow};
ghost use Rattle.incidence.specs.Incidence.{source_in, neighbours, arcs_to, bump_all, noted, CountedTo, LaidOut, appended, appended_all, ListsFilled, Empty, Built};

use form::Drawing;
use le::Row;

// Degree of half y, and start and length of its list.
fn note(room: &mut [u8], y: usize, degree: usize, start: usize, count: usize)
    requires { (y < lists_at) × (degree < 2 ^ 32) × (start < 2 ^ 32) × (count < 2 ^ 32) × (room_removal ≤ length room.old) }
    ensures { words room.new ≡ noted y degree start count (words room.old) }
{
    le::set_word(room, y, degree as u32);
    le::set_word(room, tables::LISTS + 2 * y, start as u32);
    le::set_word(room, tables::LISTS + 2 * y + 1, count as u32);
}

// One arc more at one half of each of these nodes. `append_some` has the same loop round another step; one function with a closure for the step is no
// plainer: its contract would have to say, of the words that any number of steps leave, that the next step may follow and what it makes of them.
fn count_some(room: &mut [u8], src: &[u8], r: Row, first: usize, count: usize, side: usize)
    requires holds { Holds src.now r (first + count) × (side < 2) × (room_removal ≤ length room.old) }
    requires all_low { AllLow most_vertices (form_list (source src.now r) first count side) }
    requires by_index { (y : ℕ) → In y (form_list (source src.now r) first count side) → get_or (words room.old) y 0 + count < 2 ^ 32 }
    ensures { words room.new ≡ bump_all (form_list (source src.now r) first count side) (words room.old) }
{
    for j in 0..count {
        let id = le::number(src, r, first + j);
        let y = 2 * id + side;
        let d = le::word(room, y);
        le::set_word(room, y, d + 1);
    }
}

// The same, the first counted by itself: most lists have one id, and what a compiler makes of a loop is for longer ones.
fn count_ids(room: &mut [u8], src: &[u8], r: Row, first: usize, count: usize, side: usize)
    requires holds { Holds src.now r (first + count) × (side < 2) × (room_removal ≤ length room.old) }
    requires all_low { AllLow most_vertices (form_list (source src.now r) first count side) }
    requires by_index { (y : ℕ) → In y (form_list (source src.now r) first count side) → get_or (words room.old) y 0 + count < 2 ^ 32 }
    ensures { words room.new ≡ bump_all (form_list (source src.now r) first count side) (words room.old) }
{
    if count == 0 {
        return;
    }
    count_some(room, src, r, first, 1, side);
    count_some(room, src, r, first + 1, count - 1, side);
}

// Edge i, which begins at index k: its halves noted, and its ports counted at its nodes; answered is where the next edge begins.
fn count_edge(room: &mut [u8], drawing: Drawing<'_>, i: usize, k: usize) -> usize
    requires edge { (i < drawing.sizes.edges) × (k ≡ edge_start (graph_in drawing).edges i) × (room_removal ≤ length room.old) }
    requires counted_to { CountedTo (source_in drawing) (graph_in drawing) (words room.old) i }
    ensures { (result ≡ edge_start (graph_in drawing.entry).edges (i + 1))
        × CountedTo (source_in drawing.entry) (graph_in drawing.entry) (words room.new) (i + 1) }
{
    let r = drawing.body();
    let e = form::edge_at(drawing.src, r, k);
    let y = 2 * (drawing.sizes.nodes + i);
    note(room, y, e.sources, e.first + e.sources, e.targets);
    note(room, y + 1, e.targets, e.first, e.sources);
    count_ids(room, drawing.src, r, e.first, e.sources, 1);
    count_ids(room, drawing.src, r, e.first + e.sources, e.targets, 0);
    e.end
}

// All degrees, and the lists of the edges.
fn count(room: &mut [u8], drawing: Drawing<'_>)
    requires { room_removal ≤ length room.old }
    ensures { CountedTo (source_in drawing.entry) (graph_in drawing.entry) (words room.new) drawing.entry.sizes.edges }
{
    le::clear_words(room, 0, 2 * drawing.sizes.nodes);
    let mut k: usize = 0;
    for i in 0..drawing.sizes.edges {
        k = count_edge(room, drawing, i, k);
    }
}

// The starts of the first n lists, each with room for as many entries as its half's mate has arcs.
fn lay_out(room: &mut [u8], n: usize)
    requires { (n ≤ lists_at) × (room_removal ≤ length room.old) × (sum_to (λ u. get_or (words room.old) (mate u) 0) n ≤ most_ports) }
    ensures { LaidOut (words room.old) (words room.new) n }
{
    let mut sum: usize = 0;
    for y in 0..n {
        le::set_word(room, tables::LISTS + 2 * y, sum as u32);
        le::set_word(room, tables::LISTS + 2 * y + 1, 0);
        let size = le::word(room, y + 1 - 2 * (y % 2)) as usize;
        sum += size;
    }
}

// t at the end of the list of half y.
fn append(room: &mut [u8], y: usize, t: u32)
    requires { (y < lists_at) × (room_removal ≤ length room.old) × (start_of (words room.old) y + count_of (words room.old) y < most_ports) }
    ensures { words room.new ≡ appended y t (words room.old) }
{
    let start = le::word(room, tables::LISTS + 2 * y) as usize;
    let count = le::word(room, tables::LISTS + 2 * y + 1);
    le::set_word(room, tables::ENTRIES + (start + count as usize), t);
    le::set_word(room, tables::LISTS + 2 * y + 1, count + 1);
}

// t at the end of the list of one half of each of these nodes.
fn append_some(room: &mut [u8], src: &[u8], r: Row, first: usize, count: usize, side: usize, t: u32)
    requires holds { Holds src.now r (first + count) × (side < 2) × (room_removal ≤ length room.old) }
    requires all_low { AllLow most_vertices (form_list (source src.now r) first count side) }
    requires by_index { (j : ℕ) → j < count → let ys = form_list (source src.now r) first count side in let W = appended_all (take j ys) t (words room.old) in
        start_of W (get_or ys j 0) + count_of W (get_or ys j 0) < most_ports }
    ensures { words room.new ≡ appended_all (form_list (source src.now r) first count side) t (words room.old) }
{
    for j in 0..count {
        let id = le::number(src, r, first + j);
        append(room, 2 * id + side, t);
    }
}

// The same, the first by itself.
fn append_ids(room: &mut [u8], src: &[u8], r: Row, first: usize, count: usize, side: usize, t: u32)
    requires holds { Holds src.now r (first + count) × (side < 2) × (room_removal ≤ length room.old) }
    requires all_low { AllLow most_vertices (form_list (source src.now r) first count side) }
    requires by_index { (j : ℕ) → j < count → let ys = form_list (source src.now r) first count side in let W = appended_all (take j ys) t (words room.old) in
        start_of W (get_or ys j 0) + count_of W (get_or ys j 0) < most_ports }
    ensures { words room.new ≡ appended_all (form_list (source src.now r) first count side) t (words room.old) }
{
    if count == 0 {
        return;
    }
    append_some(room, src, r, first, 1, side, t);
    append_some(room, src, r, first + 1, count - 1, side, t);
}

// The nodes' lists.
fn fill(room: &mut [u8], drawing: Drawing<'_>)
    requires room_removal_in_bounds { room_removal ≤ length room.old }
    requires empty { Empty (graph_in drawing) (words room.old) }
    ensures { ListsFilled (words room.old) (words room.new) (2 * drawing.entry.sizes.nodes) (neighbours (arcs_to (graph_in drawing.entry) drawing.entry.sizes.edges)) }
{
    let r = drawing.body();
    let mut k: usize = 0;
    for i in 0..drawing.sizes.edges {
        let e = form::edge_at(drawing.src, r, k);
        let y = (2 * (drawing.sizes.nodes + i)) as u32;
        append_ids(room, drawing.src, r, e.first, e.sources, 0, y);
        append_ids(
            room,
            drawing.src,
            r,
            e.first + e.sources,
            e.targets,
            1,
            y + 1,
        );
        k = e.end;
    }
}

// The incidence graph of the stored drawing.
pub fn build(room: &mut [u8], drawing: Drawing<'_>)
    requires { room_removal ≤ length room.old }
    ensures { Built (source_in drawing.entry) (graph_in drawing.entry) (words room.new) }
{
    count(room, drawing);
    lay_out(room, 2 * drawing.sizes.nodes);
    fill(room, drawing);
}
