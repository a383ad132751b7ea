// The next change of one node over all patterns, by entries of the lent table: by functions in the working table where it has room,
// else for each value of a letter, then of the next, down to constants (document 01, "Working is a second lent table").
// Promise: what is stored is `change_by` at every pattern, with exactly its missing entries; the length of working is in no contract.
#![tactic(auto)]

pub mod pattern;
pub mod split;
