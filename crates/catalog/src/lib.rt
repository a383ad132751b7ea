// Every small cell, listed (document 02, wish 12): the cell at a place, written as its file into a lent buffer.
// Promise: for every place and every buffer the answer is that of specs/Small.antt, by its number and by each byte.
// Nothing is required of a caller: 9 past the last place, then 8 for the room. The cell is found by arithmetic, and no list is walked.
#![tactic(auto)]

ghost use Rattle.std.specs.Prelude.{◌≡◌, ◌<◌, length, get_or};
ghost use Rattle.refusal.specs.Answer as answer;
ghost use Rattle.format.specs.Circuit.{no_transistor};
ghost use Rattle.cell.specs.Value.{firsts, circuit_of};
ghost use Rattle.writer.specs.Saving.{Saves};
ghost use Rattle.catalog.specs.Lists.{listed_at};
ghost use Rattle.catalog.specs.Small.{other_ends, small_transistors, small_cell, small_cells, small_file};

use cell::Cell;
use format::{Entry, Header, Node, Transistor};
use refusal::Refusal;
use units::{Femtofarads, Ohms, Picoseconds};
use writer::save_cell;

const TRANSISTORS: u32 = 96;

const CELLS: u32 = TRANSISTORS + TRANSISTORS * TRANSISTORS;

// The second end at a place among those that differ from the first.
fn second_end(first: u32, place: u32) -> u32
    requires { (first < 4) × (place < 3) }
    ensures { (result ≡ get_or (other_ends first) place 0) × (result < 4) }
{
    if place < first {
        return place;
    }
    place + 1
}

// The transistor at a place: 48 of each type, 12 at each gate, 3 at each first end.
fn transistor_at(place: u32) -> Transistor
    requires { place < 96 }
    ensures { result ≡ get_or small_transistors place no_transistor }
{
    let of_type = place % 48;
    let of_gate = of_type % 12;
    let first = of_gate / 3;
    let second = second_end(first, of_gate % 3);
    Transistor {
        polarity: (place / 48) as u8,
        gate: (of_type / 12) as u8,
        first: first as u8,
        second: second as u8,
        resistance: Ohms(1),
    }
}

// The cell with the first count of these transistors.
fn cell_with(transistors: [Transistor; Cell::MOST_TRANSISTORS as usize], count: u32) -> Cell
    ensures { circuit_of result ≡ small_cell (firsts count no_transistor transistors) }
{
    let inner = Node {
        role: 0,
        start: 0,
        capacitance: Femtofarads(1),
    };
    let mut nodes = [inner; Cell::MOST_NODES as usize];
    nodes[0] = Node {
        role: 1,
        start: 2,
        capacitance: Femtofarads(0),
    };
    let none = Entry {
        input: 0,
        source: 0,
        time: Picoseconds(0),
    };
    Cell {
        header: Header {
            nodes: 2,
            transistors: count,
            entries: 0,
            letters: 1,
            horizon: Picoseconds(10),
        },
        nodes,
        transistors,
        schedule: [none; Cell::MOST_ENTRIES as usize],
    }
}

// The cell at a place: one transistor, or two, of which the second changes from each place to the next.
fn cell_at(place: u32) -> Cell
    requires { place < 9312 }
    ensures { listed_at small_cells place ≡ answer.answered (circuit_of result) }
{
    if place < TRANSISTORS {
        let only = transistor_at(place);
        return cell_with([only; Cell::MOST_TRANSISTORS as usize], 1);
    }
    let pair = place - TRANSISTORS;
    let first = transistor_at(pair / TRANSISTORS);
    let second = transistor_at(pair % TRANSISTORS);
    let mut transistors = [second; Cell::MOST_TRANSISTORS as usize];
    transistors[0] = first;
    cell_with(transistors, 2)
}

// The file of the cell at a place: 9 past the last, then 8.
pub fn save_small(out: &mut [u8], place: u32) -> Result<u32, Refusal>
    ensures { Saves out.old out.new (small_file (length out.old) place) result }
{
    if CELLS <= place {
        return Err(Refusal::Question);
    }
    let cell = cell_at(place);
    save_cell(out, cell)
}
