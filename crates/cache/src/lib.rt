// What an operation on entries found before (the field's computed table): slots of four words, three operands, then the result and one more,
// 0 where the slot is free.
// Promise: a result that is found was kept for the same operands. A slot is given to the operands that came last, and what stood there is
// forgotten, so whoever asks must be able to work a result out again.
#![tactic(auto)]

ghost use Rattle.std.specs.Prelude.{◌<◌, ◌≤◌, length};
ghost use Rattle.cache.specs.Cache.{Slot, Looked, Kept};

// A cache in a frame: 128 slots. Clearing it costs less than one operation on a few entries.
pub const WORDS: usize = 512;

// A slot for a sum of products of the operands; the upper bits are added in.
fn pick(sum: u64, slots: usize) -> usize
    requires { (0 < slots) × (sum < 9223372036854775808) }
    ensures { result < slots }
{
    ((sum + sum / 65536) % (slots as u64)) as usize
}

// The first word of a slot for three operands.
fn slot(cache: &[u32], a: u32, b: u32, c: u32) -> usize
    requires { 4 ≤ length cache.now }
    ensures { Slot cache.now result }
{
    let sum = (a as u64) * 40503 + (b as u64) * 60493 + (c as u64) * 9973;
    let s = pick(sum, cache.len() / 4);
    4 * s
}

// The result and one more that was kept for three operands, or 0.
pub fn look(cache: &[u32], a: u32, b: u32, c: u32) -> u32
    requires { 4 ≤ length cache.now }
    ensures { Looked cache.now a b c result }
{
    let at = slot(cache, a, b, c);
    if cache[at] != a {
        return 0;
    }
    if cache[at + 1] != b {
        return 0;
    }
    if cache[at + 2] != c {
        return 0;
    }
    cache[at + 3]
}

// Keeps the result `e` for three operands.
pub fn keep(cache: &mut [u32], a: u32, b: u32, c: u32, e: u32)
    requires { (4 ≤ length cache.old) × (e < 4294967295) }
    ensures { Kept cache.old a b c e cache.new }
{
    let at = slot(cache, a, b, c);
    cache[at] = a;
    cache[at + 1] = b;
    cache[at + 2] = c;
    cache[at + 3] = e + 1;
}
