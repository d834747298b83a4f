// Where the engine's tables lie in a lent room, in words: here for code, and by the same names in specs/Tables for proofs. All follows from the limits.
// The degrees of the halves stand first; then start and length of each half's list, the entries of the nodes' lists, the halves that wait or have waited,
// the flags of the chosen nodes, and the queue. Between two tables lie GAP words that nothing uses, so that they do not all begin on the same cache sets.
#![tactic(auto)]

pub const GAP: usize = 688;

pub const VERTICES: usize = graph::MAX_NODES + graph::MAX_EDGES;

pub const LISTS: usize = 2 * VERTICES + GAP;

pub const ENTRIES: usize = LISTS + 4 * VERTICES + GAP;

pub const WAITING: usize = ENTRIES + graph::MAX_PORTS + GAP;

pub const PICKED: usize = WAITING + VERTICES + GAP;

pub const QUEUE: usize = PICKED + graph::MAX_NODES + GAP;

// The bytes of work room that free removal needs, and those that the choice needs.
pub const REMOVAL_BYTES: usize = 4 * PICKED;

pub const CHOICE_BYTES: usize = 4 * (QUEUE + 2 * graph::MAX_NODES);
