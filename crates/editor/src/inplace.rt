// One step on a run record that the caller holds as a struct: the record is stepped by value, and stored back.
ghost use Rattle.std.specs.Prelude.{◌≡◌};
ghost use Rattle.format.specs.File.{read_cell};
ghost use Rattle.diagram.specs.Call.{columns};
ghost use Rattle.advance.specs.declared.Task.TheVariants.{Step};
ghost use Rattle.advance.specs.Task.{task_call};
ghost use Rattle.editor.specs.Runs.{AdvanceDone};

use advance::Task;
use record::Run;
use run::go::on_file;

// One step on the record behind `run`, which changes with an answer alone.
pub fn sts_advance(
    file: &[u8],
    letter: &mut [u32],
    low: &mut [u32],
    high: &mut [u32],
    run: &mut Run,
    work_letter: &mut [u32],
    work_low: &mut [u32],
    work_high: &mut [u32],
) -> u32
    ensures { AdvanceDone (columns letter.old low.old high.old) (columns letter.new low.new high.new) run.old run.new (columns work_letter.old work_low.old work_high.old) (columns work_letter.new work_low.new work_high.new) (task_call (read_cell file.now) Step (columns letter.old low.old high.old) run.old (columns work_letter.old work_low.old work_high.old)) result }
{
    let went = on_file(
        file,
        Task::Step,
        letter,
        low,
        high,
        *run,
        work_letter,
        work_low,
        work_high,
    );
    match went {
        Ok(after) => {
            *run = after;
            0
        }
        Err(why) => u32::from(why),
    }
}
