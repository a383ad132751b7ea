// The places of a step's functions in one array: a value for each node by number, rails among them, whether each transistor is kept, and
// whether each node is a seed, an inner node at an end of a disturbed transistor; then the pending change, of one node or of every node by number.
pub const VALUES: usize = 26;

pub const KEPT: usize = VALUES;

pub const LEAF: usize = KEPT + 64;

pub const SEEDS: usize = LEAF;

pub const PENDING: usize = SEEDS + VALUES;

// With the pending change of one node.
pub const ROOTS: usize = PENDING + 1;

// With that of every node.
pub const ALL_ROOTS: usize = PENDING + VALUES;

// Entries of the lent table by which one node is worked out: values before T, values after it, its pending change; 0 past them, up to
// the length of one node's roots, so that the same functions take their parts.
pub const AFTER: usize = VALUES;

pub const CHANGE: usize = AFTER + VALUES;
