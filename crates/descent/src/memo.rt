// A memo of a descent: a word for each slot, 0 where it is free, else its entry and one more; then the roots of each slot.
ghost use Rattle.std.specs.Prelude.{◌≡◌, false, ℕ, ◌<◌, ◌≤◌, length, get_or};
ghost use Rattle.descent.specs.Live.{Places};
ghost use Rattle.descent.specs.Memo.{slots, memo_length, Looked, Remembered};
ghost use Rattle.table.specs.Stop.{stopped};
ghost use Rattle.net.specs.Roots.{roots_length};

use net::roots::ROOTS;
use table::{Put, stopped};

// So many that what a descent comes back to is mostly still there.
const SLOTS: usize = 277;

pub const MEMO: usize = SLOTS * (ROOTS + 1);

// Frees every slot.
pub fn forget(memo: &mut [u32])
    requires { memo_length ≤ length memo.old }
    ensures { (s : ℕ) → s < slots → get_or memo.new s 0 ≡ 0 }
{
    memo[..SLOTS].fill(0);
}

// One root more in a number for the roots, of 20 bits.
fn mix(h: u64, place: u32, root: u32) -> u64
    requires { h < 1048576 }
    ensures { result < 1048576 }
{
    (h * 40503 + (root as u64) * 60493 + (place as u64)) % 1048576
}

// A slot for the roots at the listed places: by the upper bits, which all roots have changed.
pub fn bucket(roots: &[u32; ROOTS], live: &[u32; ROOTS], count: u32) -> usize
    requires { Places live.now count }
    ensures { result < slots }
{
    let mut h: u64 = 0;
    for place in &live[..count as usize] {
        h = mix(h, *place, roots[*place as usize]);
    }
    (h * 277 / 1048576) as usize
}

// The word of a slot whose roots are these, or 0.
pub fn look(memo: &[u32], slot: usize, roots: &[u32; ROOTS]) -> u32
    requires slot_lt_slots { slot < slots }
    requires memo_length_in_bounds { (memo_length ≤ length memo.now) × (length roots.now ≡ roots_length) }
    ensures { Looked memo.now slot roots.now result }
{
    let word = memo[slot];
    if word == 0 {
        return 0;
    }
    let from = SLOTS + ROOTS * slot;
    if memo[from..from + ROOTS] == roots[..] {
        return word;
    }
    0
}

// Gives a slot these roots and their entry.
fn keep(memo: &mut [u32], slot: usize, roots: &[u32; ROOTS], e: u32)
    requires slot_lt_slots { (slot < slots) × (e < 4294967295) }
    requires memo_length_in_bounds { (memo_length ≤ length memo.old) × (length roots.now ≡ roots_length) }
    ensures { Remembered memo.old slot roots.now e memo.new }
{
    let from = SLOTS + ROOTS * slot;
    memo[from..from + ROOTS].copy_from_slice(roots);
    memo[slot] = e + 1;
}

// Gives a slot these roots and the entry that was stored for them; where storing stopped, the memo stays as it was.
pub fn remember(memo: &mut [u32], slot: usize, roots: &[u32; ROOTS], p: Put) -> Put
    requires slot_lt_slots { (slot < slots) × (stopped p.stop ≡ false → p.entry < 4294967295) }
    requires memo_length_in_bounds { (memo_length ≤ length memo.old) × (length roots.now ≡ roots_length) }
    ensures value { result ≡ p }
    ensures remembered { stopped p.stop ≡ false → Remembered memo.old slot roots.now p.entry memo.new }
{
    let why = p.stop;
    if stopped(why) {
        return p;
    }
    keep(memo, slot, roots, p.entry);
    p
}
