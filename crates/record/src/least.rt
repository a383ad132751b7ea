// The least number of each entry over all patterns, in a column beside a lent table.
ghost use Rattle.std.specs.Prelude.{◌≡◌, ℕ, ◌<◌, ◌≤◌, length, get_or};
ghost use Rattle.functions.specs.Open.{Legible};
ghost use Rattle.diagram.specs.Held.{held};
ghost use Rattle.record.specs.Numbers.{least_of, least_listed};
ghost use Rattle.record.specs.Leasts.{Leasts};

use functions::numbers;

// The least number of entry `e`, by those of the entries before it.
fn least_at(
    letter: &[u32],
    low: &[u32],
    high: &[u32],
    used: u32,
    k: u32,
    least: &[u32],
    e: u32,
) -> u32
    requires legible { Legible k letter.now low.now high.now used × (e < used) }
    requires leasts { Leasts k (held letter.now low.now high.now used) e least.now }
    ensures { result ≡ least_of k (held letter.now low.now high.now used) e }
{
    let i = e as usize;
    if letter[i] == numbers::TERMINAL {
        return low[i];
    }
    let a = low[i] as usize;
    let b = high[i] as usize;
    numbers::least(least[a], least[b])
}

// The column filled in from entry `done` on.
pub fn fill(
    letter: &[u32],
    low: &[u32],
    high: &[u32],
    used: u32,
    k: u32,
    least: &mut [u32],
    done: u32,
)
    requires legible { Legible k letter.now low.now high.now used × (done ≤ used) × (used ≤ length least.old) }
    requires leasts { Leasts k (held letter.now low.now high.now used) done least.old }
    ensures { (length least.new ≡ length least.old) × Leasts k (held letter.now low.now high.now used) used least.new }
{
    for e in done..used {
        least[e as usize] = least_at(letter, low, high, used, k, least, e);
    }
}

// The least of the first `n` entries of an array, or never.
pub fn least_among(least: &[u32], entries: [u32; 24], n: u32) -> u32
    requires { (n ≤ 24) × ((i : ℕ) → i < n → get_or entries i 0 < length least.now) }
    ensures { result ≡ least_listed least.now entries n }
{
    let mut all = numbers::NEVER;
    for e in &entries[..n as usize] {
        all = numbers::least(all, least[*e as usize]);
    }
    all
}
