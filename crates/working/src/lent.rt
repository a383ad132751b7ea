// Functions of the lent table, straight into the working one.
// Promise: exactly the function's missing entries are added, and what the cache knows is right in the table that is left.
ghost use Rattle.std.specs.Prelude.{◌≡◌, false};
ghost use Rattle.diagram.specs.Table.{number_at};
ghost use Rattle.diagram.specs.Store.{store};
ghost use Rattle.diagram.specs.Held.{held};
ghost use Rattle.table.specs.Stop.{stopped};
ghost use Rattle.table.specs.Holds.{Outcome};
ghost use Rattle.functions.specs.Open.{Legible, Open, Operand};
ghost use Rattle.working.specs.Known.{Known, brought, differing};

use cache::look;
use functions::numbers::TERMINAL;
use functions::step::{first_letter, join_kept, parts};
use table::{Put, Stop, stopped};

// The function of entry `e` of the lent table, whose letters are among the last `left` of the k; the cache knows entries that were brought before.
// The first three entries are the same terminals in both tables.
pub fn bring_part(
    tletter: &[u32],
    tlow: &[u32],
    thigh: &[u32],
    tused: u32,
    letter: &mut [u32],
    low: &mut [u32],
    high: &mut [u32],
    index: &mut [u32],
    used: u32,
    k: u32,
    e: u32,
    left: u32,
    cache: &mut [u32],
) -> Put
    requires legible { Legible k tletter.now tlow.now thigh.now tused × Operand k (held tletter.now tlow.now thigh.now tused) tused left e }
    requires fact { Open k letter.old low.old high.old index.old used }
    requires known { Known k (held letter.old low.old high.old used) (brought k (held tletter.now tlow.now thigh.now tused)) cache.old }
    ensures outcome { Outcome (held letter.old low.old high.old used) (store k 0 (number_at k (held tletter.now tlow.now thigh.now tused) e) (held letter.old low.old high.old used)) letter.new low.new high.new index.new result }
    ensures known_2 { stopped result.stop ≡ false → Known k (held letter.new low.new high.new result.used) (brought k (held tletter.now tlow.now thigh.now tused)) cache.new }
{
    if e < 3 {
        return Put {
            stop: Stop::Going,
            entry: e,
            used,
        };
    }
    let i = e as usize;
    let m = tletter[i];
    let a = tlow[i];
    let b = thigh[i];
    if m == TERMINAL {
        return table::add(letter, low, high, index, used, TERMINAL, a, 0);
    }
    let old = look(cache, e, 0, 0);
    if old != 0 {
        return Put {
            stop: Stop::Going,
            entry: old - 1,
            used,
        };
    }
    let p = bring_part(
        tletter,
        tlow,
        thigh,
        tused,
        letter,
        low,
        high,
        index,
        used,
        k,
        a,
        left - 1,
        cache,
    );
    let why = p.stop;
    if stopped(why) {
        return p;
    }
    let q = bring_part(
        tletter,
        tlow,
        thigh,
        tused,
        letter,
        low,
        high,
        index,
        p.used,
        k,
        b,
        left - 1,
        cache,
    );
    let why = q.stop;
    if stopped(why) {
        return q;
    }
    join_kept(
        letter, low, high, index, q.used, m, p.entry, q.entry, cache, e, 0, 0,
    )
}

// Where entries `a` and `b` of the lent table differ: 1 there, else 0. Their letters are among the last `left` of the k; the cache knows pairs that were compared before.
// Equal entries differ nowhere, and other terminals everywhere.
pub fn differ_part(
    tletter: &[u32],
    tlow: &[u32],
    thigh: &[u32],
    tused: u32,
    letter: &mut [u32],
    low: &mut [u32],
    high: &mut [u32],
    index: &mut [u32],
    used: u32,
    k: u32,
    a: u32,
    b: u32,
    left: u32,
    cache: &mut [u32],
) -> Put
    requires legible { Legible k tletter.now tlow.now thigh.now tused × Operand k (held tletter.now tlow.now thigh.now tused) tused left a × Operand k (held tletter.now tlow.now thigh.now tused) tused left b }
    requires fact { Open k letter.old low.old high.old index.old used }
    requires known { Known k (held letter.old low.old high.old used) (differing k (held tletter.now tlow.now thigh.now tused)) cache.old }
    ensures outcome { Outcome (held letter.old low.old high.old used) (store k 0 (differing k (held tletter.now tlow.now thigh.now tused) a b 0) (held letter.old low.old high.old used)) letter.new low.new high.new index.new result }
    ensures known_2 { stopped result.stop ≡ false → Known k (held letter.new low.new high.new result.used) (differing k (held tletter.now tlow.now thigh.now tused)) cache.new }
{
    if a == b {
        return Put {
            stop: Stop::Going,
            entry: 0,
            used,
        };
    }
    let m = first_letter(tletter, a, b);
    if m == TERMINAL {
        return Put {
            stop: Stop::Going,
            entry: 1,
            used,
        };
    }
    let old = look(cache, a, b, 0);
    if old != 0 {
        return Put {
            stop: Stop::Going,
            entry: old - 1,
            used,
        };
    }
    let pa = parts(tletter, tlow, thigh, m, a);
    let pb = parts(tletter, tlow, thigh, m, b);
    let p = differ_part(
        tletter,
        tlow,
        thigh,
        tused,
        letter,
        low,
        high,
        index,
        used,
        k,
        pa.low,
        pb.low,
        left - 1,
        cache,
    );
    let why = p.stop;
    if stopped(why) {
        return p;
    }
    let q = differ_part(
        tletter,
        tlow,
        thigh,
        tused,
        letter,
        low,
        high,
        index,
        p.used,
        k,
        pa.high,
        pb.high,
        left - 1,
        cache,
    );
    let why = q.stop;
    if stopped(why) {
        return q;
    }
    join_kept(
        letter, low, high, index, q.used, m, p.entry, q.entry, cache, a, b, 0,
    )
}
