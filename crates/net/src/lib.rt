// A cell laid out flat in one column of numbers, with each node's arms listed and its group labelled, for the work of a step; its fields
// with a unit, what its schedule puts at a node, and the places of a step's functions.
// Promise: the column of a legal cell lays out exactly that cell (`Laid`): its fields, each node's arms by rising number, its groups.
// Internal to our crates: no call from outside sees it.
#![tactic(auto)]

mod arms;
pub mod inner;
pub mod labels;
mod links;
mod places;
pub mod quantities;
pub mod roots;
pub mod schedule;

ghost use Rattle.std.specs.Prelude.{◌≡◌};
ghost use Rattle.refusal.specs.Answer.{answered};
ghost use Rattle.format.specs.Legal.{check_circuit};
ghost use Rattle.cell.specs.Value.{circuit_of};
ghost use Rattle.net.specs.Laid.{Laid};

use cell::Cell;

// The places of the column.
pub const NODES: usize = 0;

pub const TRANSISTORS: usize = 1;

pub const ENTRIES: usize = 2;

pub const LETTERS: usize = 3;

const HORIZON: usize = 4;

pub const ROLE: usize = 8;

pub const START: usize = 32;

const CAPACITANCE: usize = 56;

pub const POLARITY: usize = 80;

pub const GATE: usize = 144;

pub const FIRST: usize = 208;

pub const SECOND: usize = 272;

const RESISTANCE: usize = 336;

pub const INPUT: usize = 400;

pub const SOURCE: usize = 464;

const TIME: usize = 528;

pub const DEGREE: usize = 592;

pub const ARMS: usize = 624;

pub const GROUP: usize = 2288;

// The number after the last transistor that closes a loop of channels between inner nodes; 0 without one.
pub const LOOPS: usize = 2314;

// A legal cell laid out flat.
pub fn lay(cell: Cell) -> [u32; 2315]
    requires { check_circuit (circuit_of cell) ≡ answered (circuit_of cell) }
    ensures { Laid (circuit_of cell) result }
{
    let mut net = [0u32; 2315];
    places::put_fields(&mut net, cell);
    arms::put_arms(&mut net);
    links::put_groups(&mut net);
    net
}
