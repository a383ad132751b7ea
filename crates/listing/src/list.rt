// A start and a step of a run, each with its lines.
ghost use Rattle.std.specs.Prelude.{◌≡◌, ◌+◌, ◌≤◌, length};
ghost use Rattle.format.specs.Legal.{check_circuit};
ghost use Rattle.diagram.specs.Call.{columns};
ghost use Rattle.cell.specs.Value.{circuit_of};
ghost use Rattle.advance.specs.declared.Task.TheVariants.{Start, Step};
ghost use Rattle.advance.specs.Task.{task_call};
ghost use Rattle.lines.specs.Listing.{started_lines, stepped_lines};
ghost use Rattle.lines.specs.Lines.{call_room};
ghost use Rattle.listing.specs.Printed.{no_run};
ghost use Rattle.listing.specs.Listed.{ListedAs};

use advance::Task;
use cell::Cell;
use lines::{put_started, put_stepped};
use record::Run;
use refusal::Refusal;
use run::go::on_cell;

// Where the lines end, and the run afterwards or the refusal: a refused call is the last.
#[derive(Clone, Copy)]
pub struct Listed {
    pub end: usize,
    pub run: Result<Run, Refusal>,
}

fn no_run() -> Run
    ensures { result ≡ no_run }
{
    Run {
        time: 0,
        used: 0,
        values: [0u32; 24],
        changes: [0u32; 24],
    }
}

// A start in a table with `used` entries.
pub fn list_start(
    cell: Cell,
    letter: &mut [u32],
    low: &mut [u32],
    high: &mut [u32],
    used: u32,
    wletter: &mut [u32],
    wlow: &mut [u32],
    whigh: &mut [u32],
    out: &mut [u8],
    at: usize,
) -> Listed
    requires { at + call_room ≤ length out.old }
    ensures { ListedAs (columns letter.old low.old high.old) (columns letter.new low.new high.new) (columns wletter.old wlow.old whigh.old) (columns wletter.new wlow.new whigh.new) (task_call (check_circuit (circuit_of cell)) (Start used) (columns letter.old low.old high.old) no_run (columns wletter.old wlow.old whigh.old)) (started_lines (circuit_of cell)) out.old out.new at result.end result.run }
{
    let none = no_run();
    let run = on_cell(
        cell,
        Task::Start(used),
        letter,
        low,
        high,
        none,
        wletter,
        wlow,
        whigh,
    );
    let end = put_started(out, at, letter, low, high, cell.header, run);
    Listed { end, run }
}

// A step of run `r`, the next after `steps`.
pub fn list_step(
    cell: Cell,
    letter: &mut [u32],
    low: &mut [u32],
    high: &mut [u32],
    r: Run,
    wletter: &mut [u32],
    wlow: &mut [u32],
    whigh: &mut [u32],
    steps: u32,
    out: &mut [u8],
    at: usize,
) -> Listed
    requires { at + call_room ≤ length out.old }
    ensures { ListedAs (columns letter.old low.old high.old) (columns letter.new low.new high.new) (columns wletter.old wlow.old whigh.old) (columns wletter.new wlow.new whigh.new) (task_call (check_circuit (circuit_of cell)) Step (columns letter.old low.old high.old) r (columns wletter.old wlow.old whigh.old)) (stepped_lines (circuit_of cell) r.time r.values steps) out.old out.new at result.end result.run }
{
    let run = on_cell(cell, Task::Step, letter, low, high, r, wletter, wlow, whigh);
    let end = put_stepped(out, at, letter, low, high, cell.header, run, r, steps);
    Listed { end, run }
}
