// The calls on a table in lent columns: one that stores a function, and one that asks for a number.
// Promise: for every input the result, a refusal, the used count and the entry, or the number, and each column afterwards are those of the definitions
// (crate diagram's specs/Call.antt, by cases in specs/Call.antt): refused 8, 7, 9 or 6 in that order, and then with the columns as they
// were; nothing is required.
#![tactic(auto)]

use diagram::Operation;

pub mod close;
pub mod opening;
pub mod store;
pub mod tell;

// What is stored: smaller or sum of entries `a` and `b`; entry `a` where selector `s` is 1, else `b`; entry `e` with letter `j` at a bit.
#[derive(Clone, Copy)]
pub enum Make {
    Apply(Operation, u32, u32),
    Choose(u32, u32, u32),
    Fix(u32, u32, u32),
}

// What is asked of an entry: its number at a pattern; the count of the patterns at which it is 1.
#[derive(Clone, Copy)]
pub enum Ask {
    Number(u32, u32),
    Count(u32),
}

// The used count and the entry of a call that stored. A refusal leaves the used count.
#[derive(Clone, Copy)]
pub struct Stored {
    pub used: u32,
    pub entry: u32,
}
