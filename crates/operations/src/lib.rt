// What else the calls, the run and their questions do with functions in a lent table: smaller, sum, fix, number, two values, count.
// Promise: smaller, sum and fix add exactly the missing entries of their result, low part, high part, root, and give the entry that the definitions of
// `diagram` give, with a cache in their frame as choose has; number, two values and count only read, and give theirs. Refusals are of `calls`.
#![tactic(auto)]

pub mod apply;
pub mod fix;
pub mod read;
