// Functions stored.
ghost use Rattle.std.specs.Prelude.{◌≡◌, true};
ghost use Rattle.diagram.specs.Store.{store as store_of};
ghost use Rattle.diagram.specs.Call.{columns};
ghost use Rattle.diagram.specs.Held.{held};
ghost use Rattle.table.specs.Holds.{Sized, Empty, Outcome};
ghost use Rattle.functions.specs.Open.{Open};
ghost use Rattle.calls.specs.Call.{make_question, made, store_call};
ghost use Rattle.calls.specs.Answered.{StoredAs};

use crate::close::closed;
use crate::opening::{Call, opened};
use crate::{Make, Stored};
use functions::choose::choose;
use operations::apply::apply;
use operations::fix::fix;
use refusal::Refusal;
use table::{Put, index_len, lengths_legal};

// On a sound table whose operands were checked.
fn make(
    what: Make,
    k: u32,
    letter: &mut [u32],
    low: &mut [u32],
    high: &mut [u32],
    index: &mut [u32],
    used: u32,
) -> Put
    requires { Open k letter.old low.old high.old index.old used × (make_question what k used (held letter.old low.old high.old used) ≡ true) }
    ensures { Outcome (held letter.old low.old high.old used) (store_of k 0 (made what k (held letter.old low.old high.old used)) (held letter.old low.old high.old used)) letter.new low.new high.new index.new result }
{
    match what {
        Make::Apply(o, a, b) => apply(letter, low, high, index, used, k, o, a, b, k),
        Make::Choose(s, a, b) => choose(letter, low, high, index, used, k, s, a, b, k),
        Make::Fix(e, j, bit) => fix(letter, low, high, index, used, k, e, j, bit, k),
    }
}

// On columns of legal lengths, with an empty index.
fn store_open(
    what: Make,
    k: u32,
    letter: &mut [u32],
    low: &mut [u32],
    high: &mut [u32],
    used: u32,
    index: &mut [u32],
) -> Result<Stored, Refusal>
    requires { Sized letter.old low.old high.old index.old × Empty index.old }
    ensures { StoredAs (columns letter.old low.old high.old) (columns letter.new low.new high.new) (store_call what k (columns letter.old low.old high.old) used) result }
{
    opened(Call::Store(what), k, letter, low, high, used, index)?;
    let put = make(what, k, letter, low, high, index, used);
    closed(letter, low, high, used, put)
}

// Every call that stores.
pub fn store(
    what: Make,
    k: u32,
    letter: &mut [u32],
    low: &mut [u32],
    high: &mut [u32],
    used: u32,
) -> Result<Stored, Refusal>
    ensures { StoredAs (columns letter.old low.old high.old) (columns letter.new low.new high.new) (store_call what k (columns letter.old low.old high.old) used) result }
{
    if !lengths_legal(letter, low, high) {
        return Err(Refusal::Buffer);
    }
    let n = index_len(letter.len());
    let mut index = [0u32; 131072];
    store_open(what, k, letter, low, high, used, &mut index[..n])
}
