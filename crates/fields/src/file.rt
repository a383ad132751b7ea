// The lines of a whole file.
ghost use Rattle.std.specs.Prelude.{◌+◌, ◌*◌, ◌^◌, ◌<◌, ◌≤◌, length};
ghost use Rattle.cell.specs.Value.{firsts, circuit_of};
ghost use Rattle.cell.specs.Counted.{Counted};
ghost use Rattle.fields.specs.Line.{line_room};
ghost use Rattle.fields.specs.Shown.{numbered, shown_cell, shown_file, most_lines, LinesWrote};

use crate::line::{Line, put_cell, put_refused};
use cell::Cell;

const FIRST_NODE_NUMBER: u32 = 2;

// A line for each of the first count records, numbered from `first` on.
fn put_lines<R: Line, const N: usize>(
    out: &mut [u8],
    at: usize,
    first: u32,
    records: [R; N],
    count: u32,
) -> usize
    requires { (count ≤ N) × (first + count < 2 ^ 32) × (at + line_room * N ≤ length out.old) }
    ensures { LinesWrote N out.old out.new at (numbered R.line first (firsts count R.none records)) result }
{
    let mut end = at;
    for i in 0..count {
        end = records[i as usize].put(out, end, first + i);
    }
    end
}

// Every field of every record in chain order.
fn put_records(out: &mut [u8], cell: Cell) -> usize
    requires { Counted cell.header × (line_room * most_lines ≤ length out.old) }
    ensures { LinesWrote most_lines out.old out.new 0 (shown_cell (circuit_of cell)) result }
{
    let header = cell.header;
    let first = put_cell(out, 0, header);
    let second = put_lines(out, first, FIRST_NODE_NUMBER, cell.nodes, header.nodes);
    let third = put_lines(out, second, 0, cell.transistors, header.transistors);
    put_lines(out, third, 0, cell.schedule, header.entries)
}

// What is printed of a file, from the start of the buffer on.
pub fn put_shown(out: &mut [u8], file: &[u8]) -> usize
    requires { line_room * most_lines ≤ length out.old }
    ensures { LinesWrote most_lines out.old out.new 0 (shown_file file.now) result }
{
    match Cell::read(file) {
        Ok(cell) => put_records(out, cell),
        Err(why) => put_refused(out, 0, why),
    }
}
