// What is checked before every call on columns of legal lengths: that the table is sound (7), and what is asked of it (9).
ghost use Rattle.std.specs.Prelude.{◌≡◌, ◌&&◌, leb};
ghost use Rattle.diagram.specs.Pattern.{most_letters};
ghost use Rattle.diagram.specs.Held.{held};
ghost use Rattle.table.specs.Holds.{Sized, Empty};
ghost use Rattle.functions.specs.Open.{Legible};
ghost use Rattle.calls.specs.Call.{make_question, ask_question, question};
ghost use Rattle.calls.specs.Answered.{Passed, Opened};

use crate::{Ask, Make};
use operations::read::{is_pattern, two_valued};
use refusal::{Refusal, Reply};
use table::sound;

// What is to be done on a table.
#[derive(Clone, Copy)]
pub enum Call {
    Store(Make),
    Tell(Ask),
}

fn make_asked(what: Make, k: u32, letter: &[u32], low: &[u32], high: &[u32], used: u32) -> bool
    requires { Legible k letter.now low.now high.now used }
    ensures { result ≡ make_question what k used (held letter.now low.now high.now used) }
{
    match what {
        Make::Apply(_, a, b) => a < used && b < used,
        Make::Choose(s, a, b) => s < used
            && (a < used && (b < used && two_valued(letter, low, high, used, k, s))),
        Make::Fix(e, j, bit) => e < used && (j < k && bit <= 1),
    }
}

fn ask_asked(what: Ask, k: u32, letter: &[u32], low: &[u32], high: &[u32], used: u32) -> bool
    requires { Legible k letter.now low.now high.now used }
    ensures { result ≡ ask_question what k used (held letter.now low.now high.now used) }
{
    match what {
        Ask::Number(e, p) => e < used && is_pattern(k, p),
        Ask::Count(e) => e < used && two_valued(letter, low, high, used, k, e),
    }
}

fn asked(call: Call, k: u32, letter: &[u32], low: &[u32], high: &[u32], used: u32) -> bool
    requires { Passed k letter.now low.now high.now used }
    ensures { result ≡ (leb k most_letters && question call k used (held letter.now low.now high.now used)) }
{
    if 12 < k {
        return false;
    }
    match call {
        Call::Store(what) => make_asked(what, k, letter, low, high, used),
        Call::Tell(what) => ask_asked(what, k, letter, low, high, used),
    }
}

// Which of 7 and 9 refuses the call; where neither does, the index holds the table.
pub fn opened(
    call: Call,
    k: u32,
    letter: &[u32],
    low: &[u32],
    high: &[u32],
    used: u32,
    index: &mut [u32],
) -> Reply
    requires { Sized letter.now low.now high.now index.old × Empty index.old }
    ensures { Opened call k letter.now low.now high.now used index.new result }
{
    if !sound(k, letter, low, high, used, index) {
        return Err(Refusal::Unsound);
    }
    if !asked(call, k, letter, low, high, used) {
        return Err(Refusal::Question);
    }
    Ok(())
}
