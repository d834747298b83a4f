// A drawing in the tables of a lent room, to which building only appends: node labels, edge labels, the log of all ports, global lists and pairs. An edge's ports are
// not kept edge by edge: the log has an entry for each port, in the order in which they came, of its half and its node. Half 2 e is the sources of edge e, half
// 2 e + 1 its targets. Deleting filters and renames each table where it stands, by a map of the new ids.
// Where the tables lie, in words. The log: half and node of each port.
#![tactic(auto)]

pub const LOG: usize = 0;

// The next port of the same half, and the first of each half: the number of the port counted from 1, or 0.
pub const NEXT: usize = LOG + 2 * graph::MAX_PORTS;

pub const FIRST: usize = NEXT + graph::MAX_PORTS;

pub const LABELS: usize = FIRST + 2 * graph::MAX_EDGES;

pub const EDGE_LABELS: usize = LABELS + graph::MAX_NODES;

pub const SOURCES: usize = EDGE_LABELS + graph::MAX_EDGES;

pub const TARGETS: usize = SOURCES + graph::MAX_SOURCES;

pub const PAIRS: usize = TARGETS + graph::MAX_TARGETS;

// The new ids of nodes or edges while some of them are deleted.
pub const MAP: usize = PAIRS + 2 * graph::MAX_PAIRS;

pub const MAP_SIZE: usize = graph::MAX_NODES + graph::MAX_EDGES;

pub const ROOM_BYTES: usize = 4 * (MAP + MAP_SIZE);

// What the map has for an id that goes.
pub const GONE: u32 = 4294967295;

// What of a table of pairs is given a new id: the node of a port, its edge, or both ends of a pair.
#[derive(Clone, Copy, Debug, PartialEq, Eq)]
pub enum Renaming {
    NodeOfPort,
    EdgeOfPort,
    BothEnds,
}
