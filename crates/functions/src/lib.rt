// A choice between functions in a lent table, and the steps that all operations on functions share: an entry's parts at a letter, and their join.
// Promise: choose adds exactly the missing entries of its result, low part, high part, root, and gives the entry that the definitions of
// `diagram` give. It keeps in its frame what it found (crate `cache`), so that it works a shared part out once. Refusals are of `calls`.
#![tactic(auto)]

pub mod choose;
pub mod numbers;
pub mod step;
