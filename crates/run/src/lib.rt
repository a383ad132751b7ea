// Start, step, run up to a picosecond and run question, on a cell file and on a cell by value.
// Promise: for every input the result, a refusal or the run, the table and working afterwards are those of the definitions (rules' specs/Call.antt),
// refused ones too; nothing is required.
#![tactic(auto)]

pub mod ask;
pub mod go;
