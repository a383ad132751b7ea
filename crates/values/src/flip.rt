// A value flipped where its next change is T: the recursion of `operations::apply`, which stops where no next change is as early, and with a cache,
// so that parts that are shared are flipped once.
ghost use Rattle.std.specs.Prelude.{◌≡◌, false, suc, ◌<◌, length, get_or};
ghost use Rattle.diagram.specs.declared.Operation.TheVariants.{Flip};
ghost use Rattle.diagram.specs.Table.{terminal};
ghost use Rattle.diagram.specs.Store.{add as addOf, store};
ghost use Rattle.diagram.specs.Operation.{flip as flipOf, applied};
ghost use Rattle.diagram.specs.Held.{held};
ghost use Rattle.table.specs.Holds.{Holds, Outcome};
ghost use Rattle.table.specs.Stop.{stopped};
ghost use Rattle.functions.specs.Open.{Open, Operand};
ghost use Rattle.functions.specs.Known.{Caches};
ghost use Rattle.record.specs.Leasts.{Leasts};

use cache::{WORDS, look};
use functions::numbers;
use functions::numbers::TERMINAL;
use functions::step::{first_letter, join_kept, parts};
use table::{Put, Stop, stopped};

// Two terminals: the terminal of the flipped number.
fn leaf(
    letter: &mut [u32],
    low: &mut [u32],
    high: &mut [u32],
    index: &mut [u32],
    used: u32,
    time: u32,
    a: u32,
    b: u32,
) -> Put
    requires a_in_bounds { (a < length low.old) × (b < length low.old) }
    requires holds { Holds letter.old low.old high.old index.old (held letter.old low.old high.old used) used }
    ensures { Outcome (held letter.old low.old high.old used) (addOf (terminal (flipOf time (get_or low.old a 0) (get_or low.old b 0))) (held letter.old low.old high.old used)) letter.new low.new high.new index.new result }
{
    let i = a as usize;
    let j = b as usize;
    let v = numbers::flip(time, low[i], low[j]);
    table::add(letter, low, high, index, used, TERMINAL, v, 0)
}

// Entry `a`, a value, flipped where entry `b`, its next change, is `time`, with a cache of such entries that were stored before.
// Their letters are among the last `left` of the k.
fn flip_in(
    letter: &mut [u32],
    low: &mut [u32],
    high: &mut [u32],
    index: &mut [u32],
    used: u32,
    k: u32,
    time: u32,
    a: u32,
    b: u32,
    left: u32,
    least: &[u32],
    cache: &mut [u32],
) -> Put
    requires fact { Open k letter.old low.old high.old index.old used }
    requires operand { Operand k (held letter.old low.old high.old used) used left a × Operand k (held letter.old low.old high.old used) used left b }
    requires leasts { Leasts k (held letter.old low.old high.old used) (suc b) least.now }
    requires caches { Caches (λ t a b _. applied k t (Flip time) a b) k (held letter.old low.old high.old used) cache.old }
    ensures outcome { Outcome (held letter.old low.old high.old used) (store k 0 (applied k (held letter.old low.old high.old used) (Flip time) a b) (held letter.old low.old high.old used)) letter.new low.new high.new index.new result }
    ensures caches_2 { stopped result.stop ≡ false → Caches (λ t a b _. applied k t (Flip time) a b) k (held letter.new low.new high.new result.used) cache.new }
{
    if time < least[b as usize] {
        return Put {
            stop: Stop::Going,
            entry: a,
            used,
        };
    }
    let m = first_letter(letter, a, b);
    if m == TERMINAL {
        return leaf(letter, low, high, index, used, time, a, b);
    }
    let old = look(cache, a, b, 0);
    if old != 0 {
        return Put {
            stop: Stop::Going,
            entry: old - 1,
            used,
        };
    }
    let pa = parts(letter, low, high, m, a);
    let pb = parts(letter, low, high, m, b);
    let a0 = pa.low;
    let b0 = pb.low;
    let less = left - 1;
    let p = flip_in(
        letter, low, high, index, used, k, time, a0, b0, less, least, cache,
    );
    let why = p.stop;
    if stopped(why) {
        return p;
    }
    let q = flip_in(
        letter, low, high, index, p.used, k, time, pa.high, pb.high, less, least, cache,
    );
    let why = q.stop;
    if stopped(why) {
        return q;
    }
    join_kept(
        letter, low, high, index, q.used, m, p.entry, q.entry, cache, a, b, 0,
    )
}

// Entry `a`, a value, flipped where entry `b`, its next change, is `time`. Their letters are among the last `left` of the k.
pub fn flip(
    letter: &mut [u32],
    low: &mut [u32],
    high: &mut [u32],
    index: &mut [u32],
    used: u32,
    k: u32,
    time: u32,
    a: u32,
    b: u32,
    left: u32,
    least: &[u32],
) -> Put
    requires fact { Open k letter.old low.old high.old index.old used }
    requires operand { Operand k (held letter.old low.old high.old used) used left a × Operand k (held letter.old low.old high.old used) used left b }
    requires leasts { Leasts k (held letter.old low.old high.old used) (suc b) least.now }
    ensures { Outcome (held letter.old low.old high.old used) (store k 0 (applied k (held letter.old low.old high.old used) (Flip time) a b) (held letter.old low.old high.old used)) letter.new low.new high.new index.new result }
{
    if time < least[b as usize] {
        return Put {
            stop: Stop::Going,
            entry: a,
            used,
        };
    }
    let mut cache: [u32; WORDS] = [0; WORDS];
    flip_in(
        letter, low, high, index, used, k, time, a, b, left, least, &mut cache,
    )
}
