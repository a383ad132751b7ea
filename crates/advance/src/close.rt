// The end of a task.
ghost use Rattle.advance.specs.Parts.{Closed};

use record::Run;
use refusal::Refusal;
use table::clear;

// Where the task was refused, the columns are cleared from the old used count on.
pub fn closed(
    letter: &mut [u32],
    low: &mut [u32],
    high: &mut [u32],
    used: u32,
    next: Result<Run, Refusal>,
) -> Result<Run, Refusal>
    ensures { Closed letter.old low.old high.old letter.new low.new high.new used next result }
{
    if next.is_err() {
        clear(letter, low, high, used);
    }
    next
}
