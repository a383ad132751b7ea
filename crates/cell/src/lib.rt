// The cell as a value with its limits, the check of a cell handed over as a value, and the reader of a cell file.
// Promise: for every value and every list of bytes the answer is that of the definitions of `format`, by its number and by its value.
// Nothing is required of a caller.
#![tactic(auto)]

mod legal;
mod reader;
pub mod size;

ghost use Rattle.std.specs.Prelude.{◌≡◌};
ghost use Rattle.refusal.specs.Answer.{reply_of};
ghost use Rattle.format.specs.Legal.{check_circuit};
ghost use Rattle.format.specs.File.{read_cell};
ghost use Rattle.cell.specs.Value.{circuit_of, reading};

use format::{Entry, Header, Node, Transistor};
use records::bytes;
use refusal::Refusal;

// A cell: places past the header's counts are zero in one that was read, and not looked at in one handed over.
#[derive(Clone, Copy)]
pub struct Cell {
    pub header: Header,
    pub nodes: [Node; Cell::MOST_NODES as usize],
    pub transistors: [Transistor; Cell::MOST_TRANSISTORS as usize],
    pub schedule: [Entry; Cell::MOST_ENTRIES as usize],
}

impl Cell {
    pub const MOST_NODES: u32 = 24;

    pub const MOST_TRANSISTORS: u32 = 64;

    pub const MOST_ENTRIES: u32 = 64;

    pub const MOST_LETTERS: u32 = 12;

    pub const MOST_HORIZON: u64 = 1000000;

    // Ohms of the weakest transistor.
    pub const MOST_RESISTANCE: u64 = 240000;

    pub const MOST_BYTES: usize = size::RECORD_SIZE
        * (1 + Cell::MOST_NODES + Cell::MOST_TRANSISTORS + Cell::MOST_ENTRIES) as usize;

    // A cell handed over as a value: 2, then 4, then 5.
    pub fn check(self) -> Result<(), Refusal>
        ensures { result ≡ reply_of (check_circuit (circuit_of self)) }
    {
        let header = self.header;
        if !legal::limits_kept(header) {
            return Err(Refusal::Header);
        }
        if !legal::fields_legal(self) {
            return Err(Refusal::Record);
        }
        let schedule = self.schedule;
        if !legal::rising(schedule, header.entries) {
            return Err(Refusal::Order);
        }
        Ok(())
    }

    // A cell file of any bytes: 1 by its first 16 bytes, 2, 1 by its full length, 3, 4, 5.
    pub fn read(file: &[u8]) -> Result<Cell, Refusal>
        ensures { result ≡ reading (read_cell file.now) }
    {
        if file.len() < size::RECORD_SIZE {
            return Err(Refusal::Length);
        }
        let header = bytes::file_header(file);
        if !reader::header_legal(file, header) {
            return Err(Refusal::Header);
        }
        if file.len() != size::stated_length(header) {
            return Err(Refusal::Length);
        }
        reader::read_chains(file, header)
    }
}
