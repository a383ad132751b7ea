// The lines that say what a cell file holds: the cell's, each record's, a refusal's, and all of them together.
// Promise: each function writes exactly the bytes of its definition (specs/Line.antt, specs/Shown.antt) into a lent buffer.
// `show` prints a whole file; the listing of a run begins with the same line of the cell and refuses by the same line.
#![tactic(auto)]

pub mod file;
pub mod line;
