// Start, step and run up to a picosecond.
ghost use Rattle.std.specs.Prelude.{◌≡◌, true, ◌&&◌};
ghost use Rattle.refusal.specs.Answer.{answered};
ghost use Rattle.format.specs.Legal.{check_circuit};
ghost use Rattle.format.specs.File.{read_cell};
ghost use Rattle.cell.specs.Value.{circuit_of, cell_by};
ghost use Rattle.diagram.specs.Call.{columns, lengths_legal};
ghost use Rattle.rules.specs.Call.{working_legal};
ghost use Rattle.advance.specs.Task.{task_call};
ghost use Rattle.run.specs.Done.{DoneAs};
ghost use Rattle.run.specs.Replied.{Replied};

use advance::{Task, advance};
use cell::Cell;
use record::Run;
use refusal::Refusal;
use table::{clear, index_len, lengths_legal};

const LEAST_WORKING: usize = 4096;

// Whether the lengths of the table and of working are legal.
fn lengths(
    letter: &[u32],
    low: &[u32],
    high: &[u32],
    wletter: &[u32],
    wlow: &[u32],
    whigh: &[u32],
) -> bool
    ensures { result ≡ (lengths_legal (columns letter.now low.now high.now) && working_legal (columns wletter.now wlow.now whigh.now)) }
{
    if !lengths_legal(letter, low, high) {
        return false;
    }
    if !lengths_legal(wletter, wlow, whigh) {
        return false;
    }
    LEAST_WORKING <= wletter.len()
}

// On a legal cell, with columns of legal lengths.
fn on_legal(
    cell: Cell,
    task: Task,
    letter: &mut [u32],
    low: &mut [u32],
    high: &mut [u32],
    r: Run,
    wletter: &mut [u32],
    wlow: &mut [u32],
    whigh: &mut [u32],
) -> Result<Run, Refusal>
    requires { (check_circuit (circuit_of cell) ≡ answered (circuit_of cell)) × (lengths_legal (columns letter.old low.old high.old) ≡ true) × (working_legal (columns wletter.old wlow.old whigh.old) ≡ true) }
    ensures { DoneAs (columns letter.old low.old high.old) (columns letter.new low.new high.new) (columns wletter.old wlow.old whigh.old) (columns wletter.new wlow.new whigh.new) (task_call (answered (circuit_of cell)) task (columns letter.old low.old high.old) r (columns wletter.old wlow.old whigh.old)) result }
{
    let net = net::lay(cell);
    let n = index_len(letter.len());
    let mut index = [0u32; 131072];
    // enough for an index of the first entries of working, in which almost every step is done, and for the memo of a descent; cleared in
    // less time than an index of all
    let mut windex = [0u32; 32768];
    let went = advance(
        &net,
        task,
        letter,
        low,
        high,
        &mut index[..n],
        r,
        wletter,
        wlow,
        whigh,
        &mut windex,
    );
    clear(wletter, wlow, whigh, 0);
    went
}

// On a cell that was read or checked, or its refusal.
fn on_replied(
    read: Result<Cell, Refusal>,
    task: Task,
    letter: &mut [u32],
    low: &mut [u32],
    high: &mut [u32],
    r: Run,
    wletter: &mut [u32],
    wlow: &mut [u32],
    whigh: &mut [u32],
) -> Result<Run, Refusal>
    requires { Replied read }
    ensures { DoneAs (columns letter.old low.old high.old) (columns letter.new low.new high.new) (columns wletter.old wlow.old whigh.old) (columns wletter.new wlow.new whigh.new) (task_call (cell_by read) task (columns letter.old low.old high.old) r (columns wletter.old wlow.old whigh.old)) result }
{
    if !lengths(letter, low, high, wletter, wlow, whigh) {
        return Err(Refusal::Buffer);
    }
    match read {
        Ok(cell) => on_legal(cell, task, letter, low, high, r, wletter, wlow, whigh),
        Err(why) => {
            clear(wletter, wlow, whigh, 0);
            Err(why)
        }
    }
}

// On a cell file.
pub fn on_file(
    file: &[u8],
    task: Task,
    letter: &mut [u32],
    low: &mut [u32],
    high: &mut [u32],
    r: Run,
    wletter: &mut [u32],
    wlow: &mut [u32],
    whigh: &mut [u32],
) -> Result<Run, Refusal>
    ensures { DoneAs (columns letter.old low.old high.old) (columns letter.new low.new high.new) (columns wletter.old wlow.old whigh.old) (columns wletter.new wlow.new whigh.new) (task_call (read_cell file.now) task (columns letter.old low.old high.old) r (columns wletter.old wlow.old whigh.old)) result }
{
    let read = Cell::read(file);
    on_replied(read, task, letter, low, high, r, wletter, wlow, whigh)
}

// On a cell by value.
pub fn on_cell(
    cell: Cell,
    task: Task,
    letter: &mut [u32],
    low: &mut [u32],
    high: &mut [u32],
    r: Run,
    wletter: &mut [u32],
    wlow: &mut [u32],
    whigh: &mut [u32],
) -> Result<Run, Refusal>
    ensures { DoneAs (columns letter.old low.old high.old) (columns letter.new low.new high.new) (columns wletter.old wlow.old whigh.old) (columns wletter.new wlow.new whigh.new) (task_call (check_circuit (circuit_of cell)) task (columns letter.old low.old high.old) r (columns wletter.old wlow.old whigh.old)) result }
{
    let checked = cell.check().and(Ok(cell));
    on_replied(checked, task, letter, low, high, r, wletter, wlow, whigh)
}
