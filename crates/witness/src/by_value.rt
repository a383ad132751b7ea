// The calls by value, each held to its place in the demands.
ghost use Rattle.refusal.specs.Number.{reply_number};
ghost use Rattle.record.specs.declared.Run.{Run};
ghost use Rattle.record.specs.declared.Wire.{Wire};
ghost use Rattle.editor.specs.Functions.{result_number, after_reply};
ghost use Rattle.diagram.specs.Call.{columns};
ghost use Rattle.demand.specs.ByValue.{on_value, by_value};
ghost use Rattle.witness.specs.Holding.{held};

use advance::Task;
use cell::Cell;
use record::{Run, Wire};
use refusal::{Refusal, Reply};
use run::ask::ask_cell;
use run::go::on_cell;

// A fresh table.
pub fn fresh(letter: &mut [u32], low: &mut [u32], high: &mut [u32]) -> Reply
    ensures { by_value.Fresh (columns letter.old low.old high.old) (columns letter.new low.new high.new) (reply_number result) }
{
    table::fresh(letter, low, high)
}

// A start, a step or a run up to a picosecond: the interface has each of them by its task.
pub fn go(
    cell: Cell,
    task: Task,
    letter: &mut [u32],
    low: &mut [u32],
    high: &mut [u32],
    r: Run,
    work_letter: &mut [u32],
    work_low: &mut [u32],
    work_high: &mut [u32],
) -> Result<Run, Refusal>
    ensures { on_value cell task (held letter.old low.old high.old r) (held letter.new low.new high.new (after_reply r result (λ (run : Run). run))) (columns work_letter.old work_low.old work_high.old) (columns work_letter.new work_low.new work_high.new) (result_number result) }
{
    on_cell(
        cell,
        task,
        letter,
        low,
        high,
        r,
        work_letter,
        work_low,
        work_high,
    )
}

// The run question.
pub fn ask(
    cell: Cell,
    letter: &[u32],
    low: &[u32],
    high: &[u32],
    r: Run,
    node: u32,
    pattern: u32,
) -> Result<Wire, Refusal>
    ensures { by_value.Ask cell (held letter.now low.now high.now r) node pattern (result_number result) (after_reply 0 result (λ (wire : Wire). wire.value)) (after_reply 0 result (λ (wire : Wire). wire.change)) }
{
    ask_cell(cell, letter, low, high, r, node, pattern)
}
