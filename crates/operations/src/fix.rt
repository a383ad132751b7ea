// A letter fixed at 0 or 1.
ghost use Rattle.std.specs.Prelude.{◌≡◌, false, cond, ◌<◌, ◌≤◌, eqb};
ghost use Rattle.diagram.specs.Store.{store};
ghost use Rattle.diagram.specs.Operation.{letter_fixed};
ghost use Rattle.diagram.specs.Held.{held};
ghost use Rattle.table.specs.Holds.{Outcome};
ghost use Rattle.table.specs.Stop.{stopped};
ghost use Rattle.functions.specs.Open.{Open, Operand};
ghost use Rattle.functions.specs.Known.{Caches};

use cache::WORDS;
use functions::step::{Halves, join_kept, parts};
use table::{Put, Stop, stopped};

// One of two parts, by a bit.
fn side(h: Halves, bit: u32) -> u32
    ensures { result ≡ cond (eqb bit 1) h.high h.low }
{
    if bit == 1 { h.high } else { h.low }
}

// Entry `e`, with letters among the last `left` of the k, with letter `j` at a bit, with a cache of those before.
fn fix_in(
    letter: &mut [u32],
    low: &mut [u32],
    high: &mut [u32],
    index: &mut [u32],
    used: u32,
    k: u32,
    e: u32,
    j: u32,
    bit: u32,
    left: u32,
    cache: &mut [u32],
) -> Put
    requires fact { Open k letter.old low.old high.old index.old used }
    requires operand { Operand k (held letter.old low.old high.old used) used left e × (j < k) × (bit ≤ 1) }
    requires caches { Caches (λ t e _ _. letter_fixed k t e j bit) k (held letter.old low.old high.old used) cache.old }
    ensures outcome { Outcome (held letter.old low.old high.old used) (store k 0 (letter_fixed k (held letter.old low.old high.old used) e j bit) (held letter.old low.old high.old used)) letter.new low.new high.new index.new result }
    ensures caches_2 { stopped result.stop ≡ false → Caches (λ t e _ _. letter_fixed k t e j bit) k (held letter.new low.new high.new result.used) cache.new }
{
    let i = e as usize;
    let m = letter[i];
    if j < m {
        return Put {
            stop: Stop::Going,
            entry: e,
            used,
        };
    }
    let h = parts(letter, low, high, m, e);
    if m == j {
        let part = side(h, bit);
        return Put {
            stop: Stop::Going,
            entry: part,
            used,
        };
    }
    let old = cache::look(cache, e, 0, 0);
    if old != 0 {
        return Put {
            stop: Stop::Going,
            entry: old - 1,
            used,
        };
    }
    let p = fix_in(
        letter,
        low,
        high,
        index,
        used,
        k,
        h.low,
        j,
        bit,
        left - 1,
        cache,
    );
    let why = p.stop;
    if stopped(why) {
        return p;
    }
    let q = fix_in(
        letter,
        low,
        high,
        index,
        p.used,
        k,
        h.high,
        j,
        bit,
        left - 1,
        cache,
    );
    let why = q.stop;
    if stopped(why) {
        return q;
    }
    join_kept(
        letter, low, high, index, q.used, m, p.entry, q.entry, cache, e, 0, 0,
    )
}

// Entry `e`, with letters among the last `left` of the k, with letter `j` at a bit.
pub fn fix(
    letter: &mut [u32],
    low: &mut [u32],
    high: &mut [u32],
    index: &mut [u32],
    used: u32,
    k: u32,
    e: u32,
    j: u32,
    bit: u32,
    left: u32,
) -> Put
    requires fact { Open k letter.old low.old high.old index.old used }
    requires operand { Operand k (held letter.old low.old high.old used) used left e × (j < k) × (bit ≤ 1) }
    ensures { Outcome (held letter.old low.old high.old used) (store k 0 (letter_fixed k (held letter.old low.old high.old used) e j bit) (held letter.old low.old high.old used)) letter.new low.new high.new index.new result }
{
    let mut cache: [u32; WORDS] = [0; WORDS];
    fix_in(
        letter, low, high, index, used, k, e, j, bit, left, &mut cache,
    )
}
