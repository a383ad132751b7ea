// The listing of a cell, as document 01's "The inverter, whole" prints it: the cell's counts, each change of a node's function, the end.
// Promise: a start and a step leave in the lent buffer exactly the bytes of the definitions (crate lines), refused ones too; made one
// after the other from a fresh table they print the listing (law `whole`, proofs/Whole.antt). `waves` and `vectors` read, loop and print.
#![tactic(auto)]

pub mod argument;
pub mod list;
pub mod print;
