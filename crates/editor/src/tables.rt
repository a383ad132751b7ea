// The calls on a table of functions of the letters.
ghost use Rattle.std.specs.Prelude.{◌≡◌, ℕ};
ghost use Rattle.diagram.specs.declared.Operation.TheVariants.{Smaller, Sum};
ghost use Rattle.diagram.specs.Call.{columns, fresh_call, apply_call, choose_call, fix_call, number_call, count_call};
ghost use Rattle.calls.specs.declared.Stored.{Stored};
ghost use Rattle.editor.specs.Functions.{FreshCall, StoredCall, ToldCall, result_number, after_reply};

use calls::store::store;
use calls::tell::tell;
use calls::{Ask, Make, Stored};
use diagram::Operation;
use refusal::Refusal;

// Hands an answer's used count and entry to the caller; a refusal leaves both as they were.
fn give_stored(s: Result<Stored, Refusal>, used: &mut u32, entry: &mut u32) -> u32
    ensures { (result ≡ result_number s) × (used.new ≡ after_reply used.old s (λ (x : Stored). x.used)) × (entry.new ≡ after_reply entry.old s (λ (x : Stored). x.entry)) }
{
    match s {
        Ok(stored) => {
            *used = stored.used;
            *entry = stored.entry;
            0
        }
        Err(why) => u32::from(why),
    }
}

// Hands an answer's number to the caller; a refusal leaves it as it was.
pub fn give_number(t: Result<u32, Refusal>, number: &mut u32) -> u32
    ensures { (result ≡ result_number t) × (number.new ≡ after_reply number.old t (λ (n : ℕ). n)) }
{
    match t {
        Ok(told) => {
            *number = told;
            0
        }
        Err(why) => u32::from(why),
    }
}

// A fresh table: three terminals, then zeros.
pub fn sts_fresh(letter: &mut [u32], low: &mut [u32], high: &mut [u32]) -> u32
    ensures { FreshCall (columns letter.old low.old high.old) (columns letter.new low.new high.new) (fresh_call (columns letter.old low.old high.old)) result }
{
    refusal::reply_number(table::fresh(letter, low, high))
}

// The first function where the selector is 1, else the second.
pub fn sts_choose(
    k: u32,
    letter: &mut [u32],
    low: &mut [u32],
    high: &mut [u32],
    used: &mut u32,
    selector: u32,
    first: u32,
    second: u32,
    entry: &mut u32,
) -> u32
    ensures { StoredCall (columns letter.old low.old high.old) (columns letter.new low.new high.new) used.old used.new entry.old entry.new (choose_call k (columns letter.old low.old high.old) used.old selector first second) result }
{
    let what = Make::Choose(selector, first, second);
    let s = store(what, k, letter, low, high, *used);
    give_stored(s, used, entry)
}

// The smaller of two functions.
pub fn sts_smaller(
    k: u32,
    letter: &mut [u32],
    low: &mut [u32],
    high: &mut [u32],
    used: &mut u32,
    first: u32,
    second: u32,
    entry: &mut u32,
) -> u32
    ensures { StoredCall (columns letter.old low.old high.old) (columns letter.new low.new high.new) used.old used.new entry.old entry.new (apply_call Smaller k (columns letter.old low.old high.old) used.old first second) result }
{
    let what = Make::Apply(Operation::Smaller, first, second);
    let s = store(what, k, letter, low, high, *used);
    give_stored(s, used, entry)
}

// The sum of two functions: never where either is, else at most 4,294,967,294.
pub fn sts_sum(
    k: u32,
    letter: &mut [u32],
    low: &mut [u32],
    high: &mut [u32],
    used: &mut u32,
    first: u32,
    second: u32,
    entry: &mut u32,
) -> u32
    ensures { StoredCall (columns letter.old low.old high.old) (columns letter.new low.new high.new) used.old used.new entry.old entry.new (apply_call Sum k (columns letter.old low.old high.old) used.old first second) result }
{
    let what = Make::Apply(Operation::Sum, first, second);
    let s = store(what, k, letter, low, high, *used);
    give_stored(s, used, entry)
}

// A function with a letter at 0 or 1.
pub fn sts_fix(
    k: u32,
    letter: &mut [u32],
    low: &mut [u32],
    high: &mut [u32],
    used: &mut u32,
    function: u32,
    letter_number: u32,
    bit: u32,
    entry: &mut u32,
) -> u32
    ensures { StoredCall (columns letter.old low.old high.old) (columns letter.new low.new high.new) used.old used.new entry.old entry.new (fix_call k (columns letter.old low.old high.old) used.old function letter_number bit) result }
{
    let what = Make::Fix(function, letter_number, bit);
    let s = store(what, k, letter, low, high, *used);
    give_stored(s, used, entry)
}

// The number of a function at a pattern.
pub fn sts_number(
    k: u32,
    letter: &[u32],
    low: &[u32],
    high: &[u32],
    used: u32,
    function: u32,
    pattern: u32,
    number: &mut u32,
) -> u32
    ensures { ToldCall number.old number.new (number_call k (columns letter.now low.now high.now) used function pattern) result }
{
    let t = tell(Ask::Number(function, pattern), k, letter, low, high, used);
    give_number(t, number)
}

// The count of the patterns at which a function is 1.
pub fn sts_count(
    k: u32,
    letter: &[u32],
    low: &[u32],
    high: &[u32],
    used: u32,
    function: u32,
    count: &mut u32,
) -> u32
    ensures { ToldCall count.old count.new (count_call k (columns letter.now low.now high.now) used function) result }
{
    let t = tell(Ask::Count(function), k, letter, low, high, used);
    give_number(t, count)
}
