// The next changes of all nodes by functions made once for a step, of those that the marked nodes are worked out from; the others are at rest.
// Promise: what was done is exactly `store_all` of `change_of` for every node; what was not, for want of room in working, has stored nothing.
// Internal to our crates: in the first entries of working, or else in all of it.
#![tactic(auto)]

pub mod nodes;
pub mod tries;
