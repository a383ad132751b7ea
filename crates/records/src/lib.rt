// The bytes of a cell file: little-endian numbers, the header, the chains, and the fields of each kind of record.
// Promise: each function gives what the definition of crate format's specs/File.antt gives, for every file that is long enough for what is read.
// Nothing is judged here but a chain and the bytes that have no name; limits and fields are the next layer's.
#![tactic(auto)]

pub mod bytes;
pub mod chains;
pub mod kinds;
