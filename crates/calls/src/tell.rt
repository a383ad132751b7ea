// Numbers asked for.
ghost use Rattle.std.specs.Prelude.{◌≡◌, true};
ghost use Rattle.diagram.specs.Call.{columns};
ghost use Rattle.diagram.specs.Held.{held};
ghost use Rattle.functions.specs.Open.{Legible};
ghost use Rattle.calls.specs.Call.{ask_question, told, tell_call};
ghost use Rattle.calls.specs.Answered.{ToldAs};

use crate::Ask;
use crate::opening::{Call, opened};
use operations::read::{count, number};
use refusal::Refusal;
use table::{index_len, lengths_legal};

// On a sound table whose entry was checked.
fn answer(what: Ask, k: u32, letter: &[u32], low: &[u32], high: &[u32], used: u32) -> u32
    requires { Legible k letter.now low.now high.now used × (ask_question what k used (held letter.now low.now high.now used) ≡ true) }
    ensures { result ≡ told what k (held letter.now low.now high.now used) }
{
    match what {
        Ask::Number(e, p) => number(letter, low, high, used, k, e, p),
        Ask::Count(e) => count(letter, low, high, used, k, e),
    }
}

// Every question.
pub fn tell(
    what: Ask,
    k: u32,
    letter: &[u32],
    low: &[u32],
    high: &[u32],
    used: u32,
) -> Result<u32, Refusal>
    ensures { ToldAs (tell_call what k (columns letter.now low.now high.now) used) result }
{
    if !lengths_legal(letter, low, high) {
        return Err(Refusal::Buffer);
    }
    let n = index_len(letter.len());
    let mut index = [0u32; 131072];
    opened(
        Call::Tell(what),
        k,
        letter,
        low,
        high,
        used,
        &mut index[..n],
    )?;
    Ok(answer(what, k, letter, low, high, used))
}
