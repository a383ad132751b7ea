// The calls on a run, each made once and held to its place in the demands: from C, and by value.
// Promise: each function ensures the proposition that crate demand's interfaces have for its call, by the contract of the call alone.
// Nobody calls them: were a contract of a call weakened, they could not be proved.
#![tactic(auto)]

pub mod by_value;
pub mod from_c;
