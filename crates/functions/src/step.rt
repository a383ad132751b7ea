// The steps that the operations share: an entry's parts at a letter, and the end of a step.
ghost use Rattle.std.specs.Prelude.{◌≡◌, false, ◌<◌, ◌≤◌, min, length, get_or};
ghost use Rattle.diagram.specs.Store.{stored, join as join_of};
ghost use Rattle.diagram.specs.Held.{entries, held};
ghost use Rattle.cache.specs.Cache.{Kept};
ghost use Rattle.table.specs.Holds.{Holds, Outcome};
ghost use Rattle.table.specs.Stop.{stopped};
ghost use Rattle.functions.specs.Open.{PartsOf};

use crate::numbers::least;
use table::{Put, Stop, stopped};

// The least letter of two entries; a terminal's is past all.
pub fn first_letter(letter: &[u32], a: u32, b: u32) -> u32
    requires { (a < length letter.now) × (b < length letter.now) }
    ensures { result ≡ min (get_or letter.now a 0) (get_or letter.now b 0) }
{
    let i = a as usize;
    let j = b as usize;
    least(letter[i], letter[j])
}

// An entry's parts for 0 and for 1.
#[derive(Clone, Copy)]
pub struct Halves {
    pub low: u32,
    pub high: u32,
}

// The parts of entry `e` at letter `m`: the entry itself where its letter is another.
pub fn parts(letter: &[u32], low: &[u32], high: &[u32], m: u32, e: u32) -> Halves
    requires { (e < length letter.now) × (length low.now ≡ length letter.now) × (length high.now ≡ length letter.now) }
    ensures { PartsOf (entries letter.now low.now high.now) m e result.low result.high }
{
    let i = e as usize;
    if letter[i] == m {
        return Halves {
            low: low[i],
            high: high[i],
        };
    }
    Halves { low: e, high: e }
}

// The entry whose parts at letter `m` are `a` and `b`.
pub fn join(
    letter: &mut [u32],
    low: &mut [u32],
    high: &mut [u32],
    index: &mut [u32],
    used: u32,
    m: u32,
    a: u32,
    b: u32,
) -> Put
    requires { Holds letter.old low.old high.old index.old (held letter.old low.old high.old used) used }
    ensures { Outcome (held letter.old low.old high.old used) (join_of m (stored (held letter.old low.old high.old used) a) (stored (held letter.old low.old high.old used) b)) letter.new low.new high.new index.new result }
{
    if a == b {
        return Put {
            stop: Stop::Going,
            entry: b,
            used,
        };
    }
    table::add(letter, low, high, index, used, m, a, b)
}

// The same, and a cache keeps the entry as the result of three operands where there was room.
pub fn join_kept(
    letter: &mut [u32],
    low: &mut [u32],
    high: &mut [u32],
    index: &mut [u32],
    used: u32,
    m: u32,
    a: u32,
    b: u32,
    cache: &mut [u32],
    x: u32,
    y: u32,
    z: u32,
) -> Put
    requires holds { Holds letter.old low.old high.old index.old (held letter.old low.old high.old used) used × (b < used) }
    requires in_bounds { 4 ≤ length cache.old }
    ensures outcome { Outcome (held letter.old low.old high.old used) (join_of m (stored (held letter.old low.old high.old used) a) (stored (held letter.old low.old high.old used) b)) letter.new low.new high.new index.new result }
    ensures kept { stopped result.stop ≡ false → Kept cache.old x y z result.entry cache.new }
{
    let r = join(letter, low, high, index, used, m, a, b);
    let why = r.stop;
    if stopped(why) {
        return r;
    }
    cache::keep(cache, x, y, z, r.entry);
    r
}
