// What is read off one entry of a lent table, and off the first entries of an array.
ghost use Rattle.std.specs.Prelude.{◌≡◌, ◌<◌, ◌≤◌};
ghost use Rattle.functions.specs.Open.{Legible};
ghost use Rattle.diagram.specs.Held.{held};
ghost use Rattle.record.specs.Numbers as defined;

use functions::numbers;

fn among(after: u32, most: u32, other: u32, x: u32) -> bool
    ensures { result ≡ defined.among after most other x }
{
    x == other || after < x && x <= most
}

// Whether every number that entry `e` takes is after `after` and at most `most`, or is `other`.
fn all_among(
    letter: &[u32],
    low: &[u32],
    high: &[u32],
    used: u32,
    k: u32,
    e: u32,
    after: u32,
    most: u32,
    other: u32,
) -> bool
    requires { Legible k letter.now low.now high.now used × (e < used) }
    ensures { result ≡ defined.all_among k (held letter.now low.now high.now used) after most other e }
{
    let i = e as usize;
    if letter[i] == numbers::TERMINAL {
        return among(after, most, other, low[i]);
    }
    all_among(letter, low, high, used, k, low[i], after, most, other)
        && all_among(letter, low, high, used, k, high[i], after, most, other)
}

// Whether `e` is an entry of the table, and every number that it takes is.
fn entry_among(
    letter: &[u32],
    low: &[u32],
    high: &[u32],
    used: u32,
    k: u32,
    e: u32,
    after: u32,
    most: u32,
    other: u32,
) -> bool
    requires { Legible k letter.now low.now high.now used }
    ensures { result ≡ defined.entry_among k (held letter.now low.now high.now used) after most other e }
{
    e < used && all_among(letter, low, high, used, k, e, after, most, other)
}

// The same of the first `n` entries of an array.
pub fn entries_among(
    letter: &[u32],
    low: &[u32],
    high: &[u32],
    used: u32,
    k: u32,
    entries: [u32; 24],
    n: u32,
    after: u32,
    most: u32,
    other: u32,
) -> bool
    requires { Legible k letter.now low.now high.now used × (n ≤ 24) }
    ensures { result ≡ defined.entries_among k (held letter.now low.now high.now used) after most other entries n }
{
    entries[..n as usize].iter().all(|e| entry_among(
        letter, low, high, used, k, *e, after, most, other,
    ))
}
