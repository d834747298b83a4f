// Half vertices in a lent room: arcs that go, and vertices that go freely.
#![tactic(auto)]

ghost use Rattle.std.specs.Prelude.{◌-◌, ◌+◌, ◌*◌, ◌<◌, ◌≤◌, length};
ghost use Rattle.le.specs.Le.{words};
ghost use Rattle.le.specs.Rows.{Holds};
ghost use Rattle.halves.specs.Halves.{lower, lower_all, peel_from, pick, seed, seed_to};
ghost use Rattle.tables.specs.Tables.{most_vertices, most_ports, room_removal};
ghost use Rattle.removal.specs.Room.{source, halves_in, room_list, form_list, list_in, AllLow, Roomy, Went, Lists};

use le::Row;

// An arc at half y has gone; answered is the new end of the waiting list.
pub fn lower(room: &mut [u8], n: usize, y: usize, end: usize) -> usize
    requires y_bound { (y < 2 * n) × (n ≤ most_vertices) × (end ≤ n) × (room_removal ≤ length room.old) }
    requires roomy { Roomy n (halves_in (words room.old) n end) }
    ensures { Went (words room.old) (words room.new) n result (lower y (halves_in (words room.old) n end)) }
{
    let d = le::word(room, y);
    le::set_word(room, y, d.saturating_sub(1));
    if d != 1 {
        return end;
    }
    le::set_word(room, y + 1 - 2 * (y % 2), 0);
    le::set_word(room, tables::WAITING + end, y as u32);
    end + 1
}

// The same for each half in a list that stands in the room. One function for this list and the form's, with a closure for half number j, is no plainer:
// the closure would have to take the room, which changes at each turn, and promise the list's entry in each room that the walk leaves.
fn lower_listed(room: &mut [u8], n: usize, start: usize, count: usize, end: usize) -> usize
    requires count_bound { (start + count ≤ most_ports) × (n ≤ most_vertices) × (end ≤ n) × (room_removal ≤ length room.old) }
    requires roomy { Roomy n (halves_in (words room.old) n end) × AllLow n (room_list (words room.old) start count) }
    ensures { Went (words room.old) (words room.new) n result (lower_all (room_list (words room.old) start count) (halves_in (words room.old) n end)) }
{
    let mut last = end;
    for j in 0..count {
        let y = le::word(room, tables::ENTRIES + start + j) as usize;
        last = lower(room, n, y, last);
    }
    last
}

// The same for each half in a list that stands in the form, as ids.
fn lower_formed(
    room: &mut [u8],
    s: &[u8],
    r: Row,
    n: usize,
    start: usize,
    count: usize,
    side: usize,
    end: usize,
) -> usize
    requires holds { (Holds s.now r (start + count)) × (side < 2) × (n ≤ most_vertices) × (end ≤ n) × (room_removal ≤ length room.old) }
    requires roomy { Roomy n (halves_in (words room.old) n end) × AllLow n (form_list (source s.now r) start count side) }
    ensures { Went (words room.old) (words room.new) n result (lower_all (form_list (source s.now r) start count side) (halves_in (words room.old) n end)) }
{
    let mut last = end;
    for j in 0..count {
        let id = le::number(s, r, start + j);
        last = lower(room, n, 2 * id + side, last);
    }
    last
}

// The same for the list of half y.
pub fn lower_all(
    room: &mut [u8],
    s: &[u8],
    r: Row,
    nodes: usize,
    n: usize,
    y: usize,
    end: usize,
) -> usize
    requires y_bound { (y < 2 * n) × (n ≤ most_vertices) × (nodes ≤ n) × (end ≤ n) × (room_removal ≤ length room.old) }
    requires roomy { Roomy n (halves_in (words room.old) n end) × Lists (source s.now r) (words room.old) nodes n }
    ensures { Went (words room.old) (words room.new) n result (lower_all (list_in (source s.now r) (words room.old) nodes y) (halves_in (words room.old) n end)) }
{
    let start = le::word(room, tables::LISTS + 2 * y) as usize;
    let count = le::word(room, tables::LISTS + 2 * y + 1) as usize;
    if y < 2 * nodes {
        return lower_listed(room, n, start, count, end);
    }
    lower_formed(room, s, r, n, start, count, y % 2, end)
}

// Each half that waits from place `from` on is walked, until none waits. What `lower_all` does stands here again, so that the compiler makes one loop of it.
pub fn peel(
    room: &mut [u8],
    s: &[u8],
    r: Row,
    nodes: usize,
    n: usize,
    from: usize,
    end: usize,
) -> usize
    requires from_le_end { (from ≤ end) × (n ≤ most_vertices) × (nodes ≤ n) × (end ≤ n) × (room_removal ≤ length room.old) }
    requires roomy { Roomy n (halves_in (words room.old) n end) × Lists (source s.now r) (words room.old) nodes n }
    ensures { Went (words room.old) (words room.new) n result
        (peel_from (n - from) (list_in (source s.now r) (words room.old) nodes) from (halves_in (words room.old) n end)) }
{
    let mut first = from;
    let mut last = end;
    while first < last {
        let y = le::word(room, tables::WAITING + first) as usize;
        first += 1;
        let start = le::word(room, tables::LISTS + 2 * y) as usize;
        let count = le::word(room, tables::LISTS + 2 * y + 1) as usize;
        if y < 2 * nodes {
            last = lower_listed(room, n, start, count, last);
        } else {
            last = lower_formed(room, s, r, n, start, count, y % 2, last);
        }
    }
    last
}

// Node x goes by choice: its degrees are set to 0, and both its lists are walked.
pub fn remove_vertex(
    room: &mut [u8],
    s: &[u8],
    r: Row,
    nodes: usize,
    n: usize,
    x: usize,
    end: usize,
) -> usize
    requires x_lt_n { (x < n) × (n ≤ most_vertices) × (nodes ≤ n) × (end ≤ n) × (room_removal ≤ length room.old) }
    requires roomy { Roomy n (halves_in (words room.old) n end) × Lists (source s.now r) (words room.old) nodes n }
    ensures { Went (words room.old) (words room.new) n result (pick (list_in (source s.now r) (words room.old) nodes) x (halves_in (words room.old) n end)) }
{
    le::set_word(room, 2 * x, 0);
    le::set_word(room, 2 * x + 1, 0);
    let mid = lower_all(room, s, r, nodes, n, 2 * x, end);
    lower_all(room, s, r, nodes, n, 2 * x + 1, mid)
}

// If a half of x is 0, x has gone and waits.
fn seed(room: &mut [u8], n: usize, x: usize, end: usize) -> usize
    requires { (x < n) × (n ≤ most_vertices) × (end ≤ x) × (room_removal ≤ length room.old) }
    ensures { Went (words room.old) (words room.new) n result (seed x (halves_in (words room.old) n end)) × (result ≤ end + 1) }
{
    let indegree = le::word(room, 2 * x);
    let outdegree = le::word(room, 2 * x + 1);
    if indegree.min(outdegree) != 0 {
        return end;
    }
    le::set_word(room, 2 * x, 0);
    le::set_word(room, 2 * x + 1, 0);
    // the half that ran out: the first, if x has no arc in
    let y = 2 * x + usize::from(indegree != 0);
    le::set_word(room, tables::WAITING + end, y as u32);
    end + 1
}

// The same for each of n vertices.
pub fn seed_all(room: &mut [u8], n: usize) -> usize
    requires { (n ≤ most_vertices) × (room_removal ≤ length room.old) }
    ensures { Went (words room.old) (words room.new) n result (seed_to n (halves_in (words room.old) n 0)) }
{
    let mut end: usize = 0;
    for x in 0..n {
        end = seed(room, n, x, end);
    }
    end
}
