// Cells saved as cell files (document 02, wish 1): the bytes of a cell, written into a lent buffer.
// Promise: for every cell and every list of bytes the answer is that of crate format's specs/Saved.antt, by its number and by each byte.
// Nothing is required of a caller who saves. A refusal, 8 for the room last of all, leaves the buffer as it was.
#![tactic(auto)]

mod chains;
mod layout;

ghost use Rattle.std.specs.Prelude.{◌≡◌, ◌≤◌, length};
ghost use Rattle.refusal.specs.Answer as answer;
ghost use Rattle.format.specs.File.{stated_length};
ghost use Rattle.format.specs.Saved.{saved_file, saved_in, save_cell, save_file};
ghost use Rattle.text.specs.Written.{Wrote};
ghost use Rattle.cell.specs.Value.{circuit_of};
ghost use Rattle.cell.specs.Counted.{Counted};
ghost use Rattle.writer.specs.Saving.{Saves};

use cell::Cell;
use cell::size::stated_length;
use chains::put_chain;
use layout::header_bytes;
use refusal::Refusal;
use text::put_bytes;

// The file of a cell, from the start of the buffer on; where it ends.
fn put_file(out: &mut [u8], cell: Cell) -> usize
    requires { Counted cell.header × (stated_length cell.header ≤ length out.old) }
    ensures { Wrote out.old out.new 0 (saved_file (circuit_of cell)) result }
{
    let header = cell.header;
    let transistors_from = 1 + header.nodes;
    let entries_from = transistors_from + header.transistors;
    let first = header_bytes(header);
    let second = put_bytes(out, 0, &first);
    let third = put_chain(out, second, 1, cell.nodes, header.nodes);
    let fourth = put_chain(
        out,
        third,
        transistors_from,
        cell.transistors,
        header.transistors,
    );
    put_chain(out, fourth, entries_from, cell.schedule, header.entries)
}

// 8 where the buffer is shorter than the file, else the file, and its length.
fn save_legal(out: &mut [u8], cell: Cell) -> Result<u32, Refusal>
    requires { Counted cell.header }
    ensures { Saves out.old out.new (saved_in (length out.old) (answer.answered (circuit_of cell))) result }
{
    if out.len() < stated_length(cell.header) {
        return Err(Refusal::Buffer);
    }
    let end = put_file(out, cell);
    Ok(end as u32)
}

// A cell handed over as a value: 2, 4, 5, then 8.
pub fn save_cell(out: &mut [u8], cell: Cell) -> Result<u32, Refusal>
    ensures { Saves out.old out.new (save_cell (length out.old) (circuit_of cell)) result }
{
    cell.check()?;
    save_legal(out, cell)
}

// A cell file of any bytes: 1 to 5 in the reader's order, then 8.
pub fn save_file(out: &mut [u8], file: &[u8]) -> Result<u32, Refusal>
    ensures { Saves out.old out.new (save_file (length out.old) file.now) result }
{
    let cell = Cell::read(file)?;
    save_legal(out, cell)
}
