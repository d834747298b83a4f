// Writing the drawing in the tables of a room as a form: the ports are linked half by half once, and each edge's are then put one after the other.
#![tactic(auto)]

ghost use Rattle.std.specs.Prelude.{◌≡◌, [], ◌+◌, ◌-◌, ◌*◌, ◌<◌, ◌≤◌, ◌^◌, length, get_or};
ghost use Rattle.le.specs.Le.{words};
ghost use Rattle.le.specs.Rows.{Holds, row_at, puts};
ghost use Rattle.graph.specs.Graph.{largest};
ghost use Rattle.graph.specs.Form.{edge_row, label_row, body};
ghost use Rattle.graph.specs.Lists.{joined};
ghost use Rattle.form.specs.Form.{body_of};
ghost use Rattle.write.specs.Write.{drawn, Put, Room};
ghost use Rattle.ledger.specs.Tables.{log_at, next_at, room_ledger};
ghost use Rattle.ledger.specs.Ledger.{drawing, log_in, nodes_at, linked_at, Sound};
ghost use Rattle.grouping.specs.Grouped.{Linked, edge_in, lists_in};

use form::Sizes;
use le::Row;

// Port k of the log in front of the ports of its half.
fn link_one(room: &mut [u8], z: Sizes, k: usize)
    requires { Sound (words room.old) z × (k < z.ports) × (room_ledger ≤ length room.old) }
    ensures { words room.new ≡ linked_at k (words room.old) }
{
    let half = le::word(room, ledger::LOG + 2 * k) as usize;
    let next = le::word(room, ledger::FIRST + half);
    le::set_word(room, ledger::NEXT + k, next);
    le::set_word(room, ledger::FIRST + half, (k + 1) as u32);
}

// The ports of each half, one leading to the next.
pub fn link(room: &mut [u8], z: Sizes)
    requires { Sound (words room.old) z × (room_ledger ≤ length room.old) }
    ensures { Linked (words room.new) z × (drawing (words room.new) z ≡ drawing (words room.old) z) }
{
    // no half has a first port
    le::clear_words(room, ledger::FIRST, 2 * z.edges);
    let mut k = z.ports;
    while 0 < k {
        k -= 1;
        link_one(room, z, k);
    }
}

// The node of a port, which is given by its number.
fn node_of(room: &[u8], z: Sizes, port: usize) -> usize
    requires { (1 ≤ port) × (port ≤ z.ports) × (z.ports ≤ largest.most_ports) × (room_ledger ≤ length room.now) }
    ensures { (result ≡ get_or (words room.now) (log_at + 2 * (port - 1) + 1) 0) × (result < 2 ^ 32) }
{
    le::word(room, ledger::LOG + 2 * (port - 1) + 1) as usize
}

// The number of the next port of the same half, 0 where there is none.
fn next_of(room: &[u8], z: Sizes, port: usize) -> usize
    requires { (1 ≤ port) × (port ≤ z.ports) × (z.ports ≤ largest.most_ports) × (room_ledger ≤ length room.now) }
    ensures { result ≡ get_or (words room.now) (next_at + (port - 1)) 0 }
{
    le::word(room, ledger::NEXT + (port - 1)) as usize
}

// The nodes of a half's ports into a row from an index on; answered is the index after them.
fn put_half(out: &mut [u8], r: Row, from: usize, room: &[u8], z: Sizes, half: usize) -> usize
    requires { Linked (words room.now) z × (half < 2 * z.edges) × Holds out.old r (from + length (nodes_at half (log_in (words room.now) z))) × (room_ledger ≤ length room.now) }
    ensures { Put out.old r from (nodes_at half (log_in (words room.now) z)) out.new result }
{
    let mut at = from;
    let mut port = le::word(room, ledger::FIRST + half) as usize;
    while port != 0 {
        let node = node_of(room, z, port);
        le::put_number(out, r, at, node);
        at += 1;
        port = next_of(room, z, port);
    }
    at
}

// An edge into a row from an index on: its two counts are put last. Answered is the index after it.
fn put_edge(out: &mut [u8], r: Row, at: usize, room: &[u8], z: Sizes, edge: usize) -> usize
    requires { Linked (words room.now) z × (edge < z.edges) × Holds out.old r (at + length (edge_row (edge_in (words room.now) z edge))) × (room_ledger ≤ length room.now) }
    ensures { Put out.old r at (edge_row (edge_in (words room.now) z edge)) out.new result }
{
    let first = at + 2;
    let middle = put_half(out, r, first, room, z, 2 * edge);
    let end = put_half(out, r, middle, room, z, 2 * edge + 1);
    write::put_two(out, r, at, middle - first, end - middle);
    end
}

// All edges; answered is the index after them.
fn put_edges(out: &mut [u8], r: Row, room: &[u8], z: Sizes) -> usize
    requires { Linked (words room.now) z × Holds out.old r (2 * z.edges + z.ports) × (room_ledger ≤ length room.now) }
    ensures { Put out.old r 0 (joined edge_row (drawing (words room.now) z).edges) out.new result }
{
    let mut at: usize = 0;
    for e in 0..z.edges {
        at = put_edge(out, r, at, room, z, e);
    }
    at
}

// The row that a table is.
fn table(off: usize) -> Row
    requires { off ≤ room_ledger }
    ensures { result ≡ row_at (4 * off) 4 }
{
    Row {
        at: 4 * off,
        width: 4,
    }
}

// The header and the labels.
fn put_labels(out: &mut [u8], y: Sizes, room: &[u8])
    requires { Room out.old y × Sound (words room.now) y × (room_ledger ≤ length room.now) }
    ensures { out.new ≡ drawn out.old y (label_row (drawing (words room.now) y)) [] }
{
    let labels = form::label_row(y);
    write::put_header(out, y);
    le::copy_numbers(out, labels, 0, room, table(ledger::LABELS), 0, y.nodes);
    le::copy_numbers(
        out,
        labels,
        y.nodes,
        room,
        table(ledger::EDGE_LABELS),
        0,
        y.edges,
    );
}

// The global lists and the pairs, from an index on.
fn put_lists(out: &mut [u8], y: Sizes, room: &[u8], lists: usize)
    requires { Room out.old y × Sound (words room.now) y × (lists ≡ 2 * y.edges + y.ports) × (room_ledger ≤ length room.now) }
    ensures { out.new ≡ puts out.old (body_of y) lists (lists_in (drawing (words room.now) y)) }
{
    let body = form::body_row(y);
    le::copy_numbers(out, body, lists, room, table(ledger::SOURCES), 0, y.sources);
    let targets = lists + y.sources;
    le::copy_numbers(
        out,
        body,
        targets,
        room,
        table(ledger::TARGETS),
        0,
        y.targets,
    );
    le::copy_numbers(
        out,
        body,
        targets + y.targets,
        room,
        table(ledger::PAIRS),
        0,
        2 * y.pairs,
    );
}

// The drawing, its ports linked, as a form of these sizes.
pub fn put_drawing(out: &mut [u8], y: Sizes, room: &[u8])
    requires { Room out.old y × Linked (words room.now) y × (room_ledger ≤ length room.now) }
    ensures { out.new ≡ drawn out.old y (label_row (drawing (words room.now) y)) (body (drawing (words room.now) y)) }
{
    put_labels(out, y, room);
    let lists = put_edges(out, form::body_row(y), room, y);
    put_lists(out, y, room, lists);
}
