// The lent table: three columns, a used count, and an index of the used entries in a fourth lent slice.
// Promise: an entry is found, or added once, exactly as the definitions of `diagram` say; so is soundness, and a fresh table.
// The index is chained: `index` has a head for each bucket and a link for each entry (specs/Index.antt). Whoever calls sees only
// that the columns and the index hold a table (specs/Holds.antt).
#![tactic(auto)]

ghost use Rattle.std.specs.Prelude.{◌≡◌, [], ◌∷◌, ◌+◌, ◌/◌, ◌<◌, ◌≤◌, length, drop};
ghost use Rattle.refusal.specs.Answer.{reply_of};
ghost use Rattle.lists.specs.Padded.{padded};
ghost use Rattle.diagram.specs.Table.{branch, entry_at, same};
ghost use Rattle.diagram.specs.Sound.{entry_legal};
ghost use Rattle.diagram.specs.Store.{fresh as freshTable, find as findOf, add as addOf};
ghost use Rattle.diagram.specs.Call.{columns, lengths_legal, fresh_call, columns_after};
ghost use Rattle.diagram.specs.Held.{all_blank, entries, held, HeldIn};
ghost use Rattle.table.specs.Stop.{stopped as stoppedOf};
ghost use Rattle.table.specs.Index.{bucket as bucketOf, linked};
ghost use Rattle.table.specs.Holds.{Sized, Ready, Holds, Outcome, Sought, Judged, zero_from, Empty, IndexLength};
ghost use Rattle.table.specs.Steps.{part_in, three_terminals, Entered, Filled};

use refusal::Refusal;

// Whether storing goes on, or why it stopped.
#[derive(Clone, Copy)]
pub enum Stop {
    Going,
    Full,
}

// What storing answers: whether it stopped; else the entry and the new used count.
#[derive(Clone, Copy)]
pub struct Put {
    pub stop: Stop,
    pub entry: u32,
    pub used: u32,
}

// Whether it stopped, whatever the reason.
pub fn stopped(stop: Stop) -> bool
    ensures { result ≡ stoppedOf stop }
{
    match stop {
        Stop::Going => false,
        Stop::Full => true,
    }
}

// Whether the columns' lengths are equal and in their range.
pub fn lengths_legal(letter: &[u32], low: &[u32], high: &[u32]) -> bool
    ensures { result ≡ lengths_legal (columns letter.now low.now high.now) }
{
    let n = letter.len();
    (3..=65536).contains(&n) && low.len() == n && high.len() == n
}

// A length for the index of columns of a size: the least power of two that is twice the size or more.
pub fn index_len(size: usize) -> usize
    requires { size ≤ 65536 }
    ensures { IndexLength size result }
{
    2 * size.next_power_of_two()
}

// The bucket of an entry.
fn bucket(half: usize, k: u32, a: u32, b: u32) -> usize
    requires { 0 < half }
    ensures { (result ≡ bucketOf half (branch k a b)) × (result < half) }
{
    let sum = (a as u64) * 40503 + (b as u64) * 60493 + (k as u64) * 9973;
    let mixed = sum + sum / 65536;
    (mixed % (half as u64)) as usize
}

// Whether row `i` is the entry (k, a, b).
#[tactic(auto, using(crate::proofs::Rows::row_same))]
fn is_entry(letter: &[u32], low: &[u32], high: &[u32], i: usize, k: u32, a: u32, b: u32) -> bool
    requires { (i < length letter.now) × (length low.now ≡ length letter.now) × (length high.now ≡ length letter.now) }
    ensures { result ≡ same (entry_at (entries letter.now low.now high.now) i) (branch k a b) }
{
    letter[i] == k && low[i] == a && high[i] == b
}

// The place of the entry (k, a, b) among the used rows, or `used`.
fn seek(
    letter: &[u32],
    low: &[u32],
    high: &[u32],
    index: &[u32],
    used: u32,
    k: u32,
    a: u32,
    b: u32,
) -> u32
    requires { Ready letter.now low.now high.now index.now used }
    ensures { Sought (entries letter.now low.now high.now) used (branch k a b) result }
{
    let half = index.len() / 2;
    let head = bucket(half, k, a, b);
    let mut e = index[head];
    while e != 0 {
        let i = (e - 1) as usize;
        if is_entry(letter, low, high, i, k, a, b) {
            return e - 1;
        }
        e = index[half + i];
    }
    used
}

// The place of the entry (k, a, b), or the used count.
pub fn find(
    letter: &[u32],
    low: &[u32],
    high: &[u32],
    index: &[u32],
    used: u32,
    k: u32,
    a: u32,
    b: u32,
) -> u32
    requires { Holds letter.now low.now high.now index.now (held letter.now low.now high.now used) used }
    ensures { result ≡ findOf (branch k a b) (held letter.now low.now high.now used) }
{
    seek(letter, low, high, index, used, k, a, b)
}

// Puts entry `at` at the head of a bucket.
fn link(index: &mut [u32], head: usize, at: u32)
    requires { (head < length index.old) × (length index.old / 2 + at < length index.old) × (at < 65536) }
    ensures { index.new ≡ linked (length index.old / 2) index.old head at }
{
    let half = index.len() / 2;
    let i = at as usize;
    index[half + i] = index[head];
    index[head] = at + 1;
}

// Finds the entry (k, a, b), or adds it where there is room.
pub fn add(
    letter: &mut [u32],
    low: &mut [u32],
    high: &mut [u32],
    index: &mut [u32],
    used: u32,
    k: u32,
    a: u32,
    b: u32,
) -> Put
    requires { Holds letter.old low.old high.old index.old (held letter.old low.old high.old used) used }
    ensures { Outcome (held letter.old low.old high.old used) (addOf (branch k a b) (held letter.old low.old high.old used)) letter.new low.new high.new index.new result }
{
    let at = find(letter, low, high, index, used, k, a, b);
    if at < used {
        return Put {
            stop: Stop::Going,
            entry: at,
            used,
        };
    }
    let n = used as usize;
    if n + 1 <= letter.len() {
        letter[n] = k;
        low[n] = a;
        high[n] = b;
        let head = bucket(index.len() / 2, k, a, b);
        link(index, head, used);
        let next = used + 1;
        return Put {
            stop: Stop::Going,
            entry: used,
            used: next,
        };
    }
    Put {
        stop: Stop::Full,
        entry: 0,
        used,
    }
}

// Whether a part of entry `i`, which branches on letter `k`, is earlier and has a larger letter.
fn part_legal(letter: &[u32], i: usize, k: u32, e: u32) -> bool
    requires { i ≤ length letter.now }
    ensures { result ≡ part_in letter.now i k e }
{
    let at = e as usize;
    at < i && k < letter[at]
}

// Whether row `i` is a legal entry.
#[tactic(auto, using(crate::proofs::Judge::legal_is))]
fn entry_legal(letters: u32, letter: &[u32], low: &[u32], high: &[u32], i: usize) -> bool
    requires { (i < length letter.now) × (length low.now ≡ length letter.now) × (length high.now ≡ length letter.now) }
    ensures { result ≡ entry_legal letters (entries letter.now low.now high.now) i }
{
    let k = letter[i];
    let a = low[i];
    let b = high[i];
    if k == 4294967295 {
        return b == 0;
    }
    k < letters && part_legal(letter, i, k, a) && part_legal(letter, i, k, b) && a != b
}

// Puts row `at` into the index, unless an earlier row equals it.
fn enter(letter: &[u32], low: &[u32], high: &[u32], index: &mut [u32], at: u32) -> bool
    requires { Ready letter.now low.now high.now index.old at × (at < length letter.now) }
    ensures { Entered letter.now low.now high.now index.new at result }
{
    let i = at as usize;
    let k = letter[i];
    let a = low[i];
    let b = high[i];
    let found = seek(letter, low, high, index, at, k, a, b);
    if found < at {
        return false;
    }
    let head = bucket(index.len() / 2, k, a, b);
    link(index, head, at);
    true
}

// Whether the used rows are legal entries and no two are equal. Puts them into the index.
fn fill(
    letters: u32,
    letter: &[u32],
    low: &[u32],
    high: &[u32],
    used: u32,
    index: &mut [u32],
) -> bool
    requires { Ready letter.now low.now high.now index.old 0 × (used ≤ length letter.now) }
    ensures { Filled letters letter.now low.now high.now used index.new result }
{
    for i in 0..used {
        if !entry_legal(letters, letter, low, high, i as usize) {
            return false;
        }
        if !enter(letter, low, high, index, i) {
            return false;
        }
    }
    true
}

// Whether rows 0, 1 and 2 are the terminals 0, 1 and never.
fn three_terminals(letter: &[u32], low: &[u32], high: &[u32]) -> bool
    requires { (3 ≤ length letter.now) × (length low.now ≡ length letter.now) × (length high.now ≡ length letter.now) }
    ensures { result ≡ three_terminals (entries letter.now low.now high.now) }
{
    is_entry(letter, low, high, 0, 4294967295, 0, 0)
        && is_entry(letter, low, high, 1, 4294967295, 1, 0)
        && is_entry(letter, low, high, 2, 4294967295, 4294967295, 0)
}

// Whether all rows from a place on are zero. With no way out of the loop before its end, several rows are taken at once.
fn blank_from(letter: &[u32], low: &[u32], high: &[u32], from: usize) -> bool
    requires { (from ≤ length letter.now) × (length low.now ≡ length letter.now) × (length high.now ≡ length letter.now) }
    ensures { result ≡ all_blank (drop from (entries letter.now low.now high.now)) }
{
    let mut bits = 0;
    for i in from..letter.len() {
        bits |= letter[i] | low[i] | high[i];
    }
    bits == 0
}

// Whether the table in the columns is sound for some letters, and all past it zero. Builds the index, which is handed over empty.
pub fn sound(
    letters: u32,
    letter: &[u32],
    low: &[u32],
    high: &[u32],
    used: u32,
    index: &mut [u32],
) -> bool
    requires { Sized letter.now low.now high.now index.old × Empty index.old }
    ensures { Judged letters letter.now low.now high.now used index.new result }
{
    let n = used as usize;
    (3..=letter.len()).contains(&n)
        && three_terminals(letter, low, high)
        && fill(letters, letter, low, high, used, index)
        && blank_from(letter, low, high, n)
}

// Zeros in a column from a place on, in short pieces, which take fewer instructions than one long run of zeros.
pub fn clear_column(column: &mut [u32], from: usize)
    ensures { column.new ≡ zero_from from column.old }
{
    let mut i = from;
    // A `while`: of what `chunks_mut` has lent, a proof knows afterwards only how much it was.
    while i < column.len() {
        let to = i + (column.len() - i).min(512);
        column[i..to].fill(0);
        i = to;
    }
}

// Zeros in all three columns from a place on.
pub fn clear(letter: &mut [u32], low: &mut [u32], high: &mut [u32], from: u32)
    ensures { (letter.new ≡ zero_from from letter.old) × (low.new ≡ zero_from from low.old) × (high.new ≡ zero_from from high.old) }
{
    let n = from as usize;
    clear_column(letter, n);
    clear_column(low, n);
    clear_column(high, n);
}

// A column that starts with three numbers and is zero from there on.
fn begin(column: &mut [u32], a: u32, b: u32, c: u32)
    requires { 3 ≤ length column.old }
    ensures { column.new ≡ padded (length column.old) 0 (a ∷ b ∷ c ∷ []) }
{
    clear_column(column, 3);
    column[0] = a;
    column[1] = b;
    column[2] = c;
}

// The fresh table in the columns, whatever they held: the terminals 0, 1 and never.
pub fn renew(letter: &mut [u32], low: &mut [u32], high: &mut [u32])
    requires { (3 ≤ length letter.old) × (length low.old ≡ length letter.old) × (length high.old ≡ length letter.old) }
    ensures { HeldIn (length letter.old) freshTable letter.new low.new high.new }
{
    begin(letter, 4294967295, 4294967295, 4294967295);
    begin(low, 0, 1, 4294967295);
    begin(high, 0, 0, 0);
}

// Makes the lent table fresh.
pub fn fresh(letter: &mut [u32], low: &mut [u32], high: &mut [u32]) -> Result<(), Refusal>
    ensures { (result ≡ reply_of (fresh_call (columns letter.old low.old high.old))) × (columns letter.new low.new high.new ≡ columns_after (columns letter.old low.old high.old) (fresh_call (columns letter.old low.old high.old))) }
{
    if !lengths_legal(letter, low, high) {
        return Err(Refusal::Buffer);
    }
    renew(letter, low, high);
    Ok(())
}
