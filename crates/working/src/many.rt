// Several functions of the lent table at once, by node number.
ghost use Rattle.std.specs.Prelude.{◌≡◌, true, false, not, cond, ◌≤◌, get_or, eqb, ltb};
ghost use Rattle.diagram.specs.Table.{number_at};
ghost use Rattle.diagram.specs.Held.{held};
ghost use Rattle.table.specs.Stop.{stopped};
ghost use Rattle.functions.specs.Open.{Legible, Open};
ghost use Rattle.working.specs.Grown.{bit, Crowded};
ghost use Rattle.working.specs.Many.{AllUsed, Filled};

use crate::lent::{bring_part, differ_part};
use cache::WORDS;
use table::{Stop, stopped};

// Entries by node number, unless making them stopped.
#[derive(Clone, Copy)]
pub struct Many {
    pub stop: Stop,
    pub used: u32,
    pub entries: [u32; 26],
}

// The first entries brought over; 0 for the rest. They share what a cache knows.
pub fn bring_all(
    tletter: &[u32],
    tlow: &[u32],
    thigh: &[u32],
    tused: u32,
    letter: &mut [u32],
    low: &mut [u32],
    high: &mut [u32],
    index: &mut [u32],
    used: u32,
    k: u32,
    entries: [u32; 26],
    count: usize,
) -> Many
    requires legible { Legible k tletter.now tlow.now thigh.now tused × AllUsed count entries tused × (count ≤ 26) }
    requires fact { Open k letter.old low.old high.old index.old used }
    ensures { (stopped result.stop ≡ false → Filled 26 k (held letter.old low.old high.old used) (λ m p. cond (ltb m count) (number_at k (held tletter.now tlow.now thigh.now tused) (get_or entries m 0) p) 0) letter.new low.new high.new index.new result.used result.entries) × (stopped result.stop ≡ true → Crowded k (held letter.old low.old high.old used) letter.new low.new high.new index.new) }
{
    let mut cache = [0u32; WORDS];
    let mut out = [0u32; 26];
    let mut now = used;
    for n in 0..count {
        let p = bring_part(
            tletter, tlow, thigh, tused, letter, low, high, index, now, k, entries[n], k,
            &mut cache,
        );
        let why = p.stop;
        if stopped(why) {
            return Many {
                stop: why,
                used: now,
                entries: out,
            };
        }
        out[n] = p.entry;
        now = p.used;
    }
    Many {
        stop: Stop::Going,
        used: now,
        entries: out,
    }
}

// Where the first entries of `before` and `after` differ: 1 there, else 0; 0 for the rest. They share what a cache knows.
// Beside `bring_all`: one function for both would take the call and what its cache knows as parameters, and be no plainer.
pub fn changed_all(
    tletter: &[u32],
    tlow: &[u32],
    thigh: &[u32],
    tused: u32,
    letter: &mut [u32],
    low: &mut [u32],
    high: &mut [u32],
    index: &mut [u32],
    used: u32,
    k: u32,
    before: [u32; 26],
    after: [u32; 26],
    count: usize,
) -> Many
    requires legible { Legible k tletter.now tlow.now thigh.now tused × AllUsed count before tused × AllUsed count after tused × (count ≤ 26) }
    requires fact { Open k letter.old low.old high.old index.old used }
    ensures { (stopped result.stop ≡ false → Filled 26 k (held letter.old low.old high.old used) (λ m p. cond (ltb m count) (bit (not (eqb (number_at k (held tletter.now tlow.now thigh.now tused) (get_or before m 0) p) (number_at k (held tletter.now tlow.now thigh.now tused) (get_or after m 0) p)))) 0) letter.new low.new high.new index.new result.used result.entries) × (stopped result.stop ≡ true → Crowded k (held letter.old low.old high.old used) letter.new low.new high.new index.new) }
{
    let mut cache = [0u32; WORDS];
    let mut out = [0u32; 26];
    let mut now = used;
    for n in 0..count {
        let p = differ_part(
            tletter, tlow, thigh, tused, letter, low, high, index, now, k, before[n], after[n], k,
            &mut cache,
        );
        let why = p.stop;
        if stopped(why) {
            return Many {
                stop: why,
                used: now,
                entries: out,
            };
        }
        out[n] = p.entry;
        now = p.used;
    }
    Many {
        stop: Stop::Going,
        used: now,
        entries: out,
    }
}
