// The next change of a node over all patterns at once: down the letters with the roots that are left, and the one-pattern rule where they are
// constants.
// Promise: what is stored is the function that at every pattern is what the pattern's numbers settle (`settled_at`), with exactly its
// missing entries, low part, high part, root. Where the numbers are right that is the rules' next change, or that the walk exceeds the ceiling (proofs/Settled.antt).
// Internal to our crates.
#![tactic(auto)]

pub mod descend;
pub mod letters;
pub mod live;
pub mod mask;
pub mod memo;
pub mod piece;
pub mod quiet;
pub mod settle;

// The place of the first kept transistor, and the number of all places, in the width of roots.
const KEPT: u32 = net::roots::KEPT as u32;

const PLACES: u32 = net::roots::ROOTS as u32;
