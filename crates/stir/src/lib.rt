// Which nodes a step between two lists of entries stirs, what these are worked out from, and the next changes of the others (document 01, step rule 2).
// Promise: a node without a mark is stirred by nothing, and what is stored for it is exactly its pending change with T taken out; where it does not fit, that it stopped for want of room.
// Internal to our crates: crate changes works out the marked nodes, and shows that the others keep their pending change.
#![tactic(auto)]

pub mod marks;
pub mod reads;
pub mod rest;
