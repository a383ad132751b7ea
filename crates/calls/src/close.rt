// The end of a call that stores.
ghost use Rattle.calls.specs.Answered.{Closed};

use crate::Stored;
use refusal::Refusal;
use table::{Put, Stop, clear};

// The reason becomes the refusal. Where storing stopped, the columns are cleared from the old used count on.
pub fn closed(
    letter: &mut [u32],
    low: &mut [u32],
    high: &mut [u32],
    used: u32,
    put: Put,
) -> Result<Stored, Refusal>
    ensures { Closed letter.old low.old high.old letter.new low.new high.new used put.stop put.entry put.used result }
{
    let why = put.stop;
    match why {
        Stop::Going => Ok(Stored {
            used: put.used,
            entry: put.entry,
        }),
        Stop::Full => {
            clear(letter, low, high, used);
            Err(Refusal::Full)
        }
    }
}
