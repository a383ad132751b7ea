// The values of a start and of a step over all patterns, stored in node order (document 01, step rule 1 and start).
// Promise: what is stored is exactly `store_all` of the values that the definitions of `rules` give at every pattern; where it does not fit, that it stopped for want of room.
// Internal to our crates: a call refuses first, and shows what is required here.
#![tactic(auto)]

pub mod arrive;
mod flip;
pub mod source;

use table::Stop;

// An entry for each node record, 0 past them, unless storing stopped.
#[derive(Clone, Copy)]
pub struct Many {
    pub stop: Stop,
    pub used: u32,
    pub entries: [u32; 24],
}
