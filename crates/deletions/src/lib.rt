// Deleting in the tables of a room: a map of the new ids is made, and each table is sifted where it stands.
#![tactic(auto)]

ghost use Rattle.std.specs.Prelude.{◌≡◌, true, false, [], ◌+◌, ◌*◌, ◌<◌, ◌≤◌, length, get_or};
ghost use Rattle.std.proofs.lemmas.List.Edits.{sets};
ghost use Rattle.le.specs.Le.{Below, Outside, words};
ghost use Rattle.le.specs.Rows.{Holds, span};
ghost use Rattle.graph.specs.Delete as delete;
ghost use Rattle.graph.specs.Lists.{among, flat};
ghost use Rattle.ledger.specs.Tables.{map_at, map_size, room_ledger};
ghost use Rattle.ledger.specs.Ledger.{drawing, Sound, Draws, words_in};
ghost use Rattle.ledger.specs.Left.{Mapped, WordsLeft, first_left, second_left, PairsLeft};
ghost use Rattle.deletions.specs.Sifts.{Marked, is_marked, Numbered, WordTurn, both_stay, PairTurn};

use form::Sizes;
use le::Row;
use ledger::Renaming;

// ---- the map

// 1 in the map of n ids at each of so many numbers of a row.
fn mark(room: &mut [u8], n: usize, s: &[u8], r: Row, listed: usize)
    requires { Holds s.now r listed × Below n (span s.now r 0 listed) × (n ≤ map_size) × (room_ledger ≤ length room.old) × Marked (words room.old) n [] }
    ensures { Marked (words room.new) n (span s.now r 0 listed) × Outside map_at (map_at + n) (words room.old) (words room.new) }
{
    for k in 0..listed {
        let id = le::number(s, r, k);
        le::set_word(room, ledger::MAP + id, 1);
    }
}

// The new id in the map of the id i, where `to` stay before it; answered is how many stay with it.
fn number_one(room: &mut [u8], i: usize, to: usize) -> usize
    requires { (i < map_size) × (to ≤ i) × (room_ledger ≤ length room.old) }
    ensures { Numbered (words room.old) (words room.new) i to result }
{
    if le::word(room, ledger::MAP + i) == 0 {
        le::set_word(room, ledger::MAP + i, to as u32);
        return to + 1;
    }
    le::set_word(room, ledger::MAP + i, ledger::GONE);
    to
}

// The map of n ids, where those that go are marked: the new id of each that stays.
fn number_left(room: &mut [u8], n: usize)
    requires { (n ≤ map_size) × (room_ledger ≤ length room.old) }
    ensures { Mapped (words room.new) (is_marked (words room.old)) n × Outside map_at (map_at + n) (words room.old) (words room.new) }
{
    let mut to: usize = 0;
    for i in 0..n {
        to = number_one(room, i, to);
    }
}

// The map of n ids, where those go that are so many numbers of a row.
fn make_map(room: &mut [u8], n: usize, s: &[u8], r: Row, listed: usize)
    requires { Holds s.now r listed × Below n (span s.now r 0 listed) × (n ≤ map_size) × (room_ledger ≤ length room.old) }
    ensures { Mapped (words room.new) (among (span s.now r 0 listed)) n × Outside map_at (map_at + n) (words room.old) (words room.new) }
{
    le::clear_words(room, ledger::MAP, n);
    mark(room, n, s, r, listed);
    number_left(room, n);
}

// ---- tables of words

// A label goes by its own number and stays as it is, an id by what it is and is given its new one: one function for both would ask which of them it is at each of
// three places, and no plainer.

// Entry k of a table of labels, to place `to` unless it goes with its own id; answered is the next place.
fn keep_label(room: &mut [u8], off: usize, k: usize, to: usize) -> usize
    requires { (k < map_size) × (to ≤ k) × (off + k < map_at) × (room_ledger ≤ length room.old) }
    ensures { WordTurn (words room.old) (words room.new) false off k to result }
{
    if le::word(room, ledger::MAP + k) == ledger::GONE {
        return to;
    }
    let x = le::word(room, off + k);
    le::set_word(room, off + to, x);
    to + 1
}

// Entry k of a table of ids, as its new id to place `to` unless it goes; answered is the next place.
fn keep_id(room: &mut [u8], off: usize, k: usize, to: usize) -> usize
    requires { (get_or (words room.old) (off + k) 0 < map_size) × (to ≤ k) × (off + k < map_at) × (room_ledger ≤ length room.old) }
    ensures { WordTurn (words room.old) (words room.new) true off k to result }
{
    let x = le::word(room, off + k) as usize;
    let new = le::word(room, ledger::MAP + x);
    if new == ledger::GONE {
        return to;
    }
    le::set_word(room, off + to, new);
    to + 1
}

// What stays of a table of n labels; answered is how many.
fn keep_labels(room: &mut [u8], off: usize, n: usize) -> usize
    requires { (n ≤ map_size) × (off + n ≤ map_at) × (room_ledger ≤ length room.old) }
    ensures { WordsLeft (words room.old) (words room.new) false off n result }
{
    let mut to: usize = 0;
    for k in 0..n {
        to = keep_label(room, off, k, to);
    }
    to
}

// What stays of a table of n ids; answered is how many.
fn keep_ids(room: &mut [u8], off: usize, n: usize) -> usize
    requires { Below map_size (words_in (words room.old) off n) × (off + n ≤ map_at) × (room_ledger ≤ length room.old) }
    ensures { WordsLeft (words room.old) (words room.new) true off n result }
{
    let mut to: usize = 0;
    for k in 0..n {
        to = keep_id(room, off, k, to);
    }
    to
}

// ---- tables of pairs

// The first of a pair: as it is, a half with its edge's new id, or the new id.
fn first_left(room: &[u8], how: Renaming, a: u32) -> u32
    requires { (a < map_size) × (room_ledger ≤ length room.now) }
    ensures { result ≡ first_left (words room.now) how a }
{
    match how {
        Renaming::NodeOfPort => a,
        Renaming::EdgeOfPort => {
            let edge = le::word(room, ledger::MAP + (a / 2) as usize);
            if ledger::MAP_SIZE <= edge as usize {
                return ledger::GONE;
            }
            2 * edge + a % 2
        }
        Renaming::BothEnds => le::word(room, ledger::MAP + a as usize),
    }
}

// The second: as it is, or its new id.
fn second_left(room: &[u8], how: Renaming, b: u32) -> u32
    requires { (b < map_size) × (room_ledger ≤ length room.now) }
    ensures { result ≡ second_left (words room.now) how b }
{
    match how {
        Renaming::EdgeOfPort => b,
        Renaming::NodeOfPort | Renaming::BothEnds => le::word(room, ledger::MAP + b as usize),
    }
}

// Two words, at place `to` of a table of pairs, unless one of them goes; answered is the next place.
fn put_kept(room: &mut [u8], at: usize, to: usize, a: u32, b: u32) -> usize
    requires { (4 * at + 8 ≤ length room.old) × (to < map_at) }
    ensures { (words room.new ≡ sets (words room.old) at (flat (both_stay a b))) × (result ≡ to + length (both_stay a b)) }
{
    if a == ledger::GONE || b == ledger::GONE {
        return to;
    }
    le::set_word(room, at, a);
    le::set_word(room, at + 1, b);
    to + 1
}

// Entry k of a table of pairs, with new ids to place `to` unless it goes; answered is the next place.
fn keep_pair(room: &mut [u8], off: usize, k: usize, to: usize, how: Renaming) -> usize
    requires { (get_or (words room.old) (off + 2 * k) 0 < map_size) × (get_or (words room.old) (off + 2 * k + 1) 0 < map_size) × (to ≤ k) × (off + 2 * k + 2 ≤ map_at) × (room_ledger ≤ length room.old) }
    ensures { PairTurn (words room.old) (words room.new) how off k to result }
{
    let a = first_left(room, how, le::word(room, off + 2 * k));
    let b = second_left(room, how, le::word(room, off + 2 * k + 1));
    put_kept(room, off + 2 * to, to, a, b)
}

// What stays of a table of n pairs; answered is how many.
fn keep_pairs(room: &mut [u8], off: usize, n: usize, how: Renaming) -> usize
    requires { Below map_size (words_in (words room.old) off (2 * n)) × (off + 2 * n ≤ map_at) × (room_ledger ≤ length room.old) }
    ensures { PairsLeft (words room.old) (words room.new) how off n result }
{
    let mut to: usize = 0;
    for k in 0..n {
        to = keep_pair(room, off, k, to, how);
    }
    to
}

// ---- the whole

// The edges go that are n numbers of a row.
pub fn delete_edges(room: &mut [u8], z: Sizes, s: &[u8], r: Row, n: usize) -> Sizes
    requires { Sound (words room.old) z × Holds s.now r n × Below z.edges (span s.now r 0 n) × (room_ledger ≤ length room.old) }
    ensures { Draws (words room.new) result (delete.delete_edges (span s.now r 0 n) (drawing (words room.old) z)) }
{
    make_map(room, z.edges, s, r, n);
    let edges = keep_labels(room, ledger::EDGE_LABELS, z.edges);
    let ports = keep_pairs(room, ledger::LOG, z.ports, Renaming::EdgeOfPort);
    Sizes { edges, ports, ..z }
}

// The nodes go that are n numbers of a row.
pub fn delete_nodes(room: &mut [u8], z: Sizes, s: &[u8], r: Row, n: usize) -> Sizes
    requires { Sound (words room.old) z × Holds s.now r n × Below z.nodes (span s.now r 0 n) × (room_ledger ≤ length room.old) }
    ensures { Draws (words room.new) result (delete.delete_nodes (span s.now r 0 n) (drawing (words room.old) z)) }
{
    make_map(room, z.nodes, s, r, n);
    let nodes = keep_labels(room, ledger::LABELS, z.nodes);
    let ports = keep_pairs(room, ledger::LOG, z.ports, Renaming::NodeOfPort);
    let sources = keep_ids(room, ledger::SOURCES, z.sources);
    let targets = keep_ids(room, ledger::TARGETS, z.targets);
    let pairs = keep_pairs(room, ledger::PAIRS, z.pairs, Renaming::BothEnds);
    Sizes {
        nodes,
        ports,
        sources,
        targets,
        pairs,
        ..z
    }
}
