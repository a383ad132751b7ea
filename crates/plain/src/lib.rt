// One pattern on plain numbers (document 01): its state, start, step and next time, and their parts, rule by rule.
// Promise: for the cell that `net` lays out, `start`, `step` and `next_time` are `started`, `stepped` and `pattern_time` of crate rules, with what
// exceeds the ceiling, and each part is its definition there, of every state that the columns show. Internal to our crates: the symbolic step calls
// the parts at its leaves, where a next change of 0 says that a walk exceeds the ceiling (specs/Exceeded.antt).
#![tactic(auto)]

pub mod arrive;
pub mod change;
pub mod keep;
pub mod loads;
pub mod reads;
pub mod settle;
pub mod step;
pub mod sums;
pub mod time;
pub mod touch;

use net::roots::LEAF;
use units::{Femtofarads, Resistance};

// Resistances to high and to low, and the charge of the nodes that are high and of those that are low.
#[derive(Clone, Copy)]
pub struct Sum {
    pub high: Resistance,
    pub low: Resistance,
    pub raised: Femtofarads,
    pub lowered: Femtofarads,
}

// The resistance to a new value, and the charge that has to move.
#[derive(Clone, Copy)]
pub struct Load {
    pub resistance: Resistance,
    pub charge: Femtofarads,
}

// The leaf of a pattern's values (net::roots), and labels by node number: nodes that conducting channels join have one.
#[derive(Clone, Copy)]
pub struct Kept {
    pub leaf: [u32; LEAF],
    pub labels: [u32; 26],
}

// The state of one pattern: values and next changes by node number, those of the rails in front. Places past the node records are not
// looked at.
#[derive(Clone, Copy)]
pub struct State {
    pub values: [u32; 26],
    pub changes: [u32; 26],
}
