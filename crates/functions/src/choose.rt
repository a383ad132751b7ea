// Choose: the first function where the selector is 1, else the second.
ghost use Rattle.std.specs.Prelude.{◌≡◌, false, cond, ◌<◌, min, length, get_or, eqb};
ghost use Rattle.diagram.specs.Table.{terminal_letter};
ghost use Rattle.diagram.specs.Store.{store};
ghost use Rattle.diagram.specs.Operation.{chosen};
ghost use Rattle.diagram.specs.Held.{held};
ghost use Rattle.table.specs.Holds.{Outcome};
ghost use Rattle.table.specs.Stop.{stopped};
ghost use Rattle.functions.specs.Open.{Legible, Open, Operand};
ghost use Rattle.functions.specs.Known.{Found, Caches};

use crate::numbers::{TERMINAL, least};
use crate::step::{first_letter, join_kept, parts};
use cache::WORDS;
use table::{Put, Stop, stopped};

// The least letter of three entries.
fn first_of(letter: &[u32], s: u32, a: u32, b: u32) -> u32
    requires { (s < length letter.now) × (a < length letter.now) × (b < length letter.now) }
    ensures { result ≡ min (get_or letter.now s 0) (min (get_or letter.now a 0) (get_or letter.now b 0)) }
{
    let i = s as usize;
    let m = first_letter(letter, a, b);
    least(letter[i], m)
}

// The choice by a terminal.
fn by_terminal(low: &[u32], s: u32, a: u32, b: u32) -> u32
    requires { s < length low.now }
    ensures { result ≡ cond (eqb (get_or low.now s 0) 1) a b }
{
    let i = s as usize;
    if low[i] == 1 { a } else { b }
}

// The choice where it needs no recursion: by a terminal, of an entry and itself, of 1 and the selector. Its entry and one more, or 0.
fn at_once(
    letter: &[u32],
    low: &[u32],
    high: &[u32],
    used: u32,
    k: u32,
    s: u32,
    a: u32,
    b: u32,
) -> u32
    requires { Legible k letter.now low.now high.now used × (s < used) × (a < used) × (b < used) }
    ensures found { Found k (held letter.now low.now high.now used) (chosen k (held letter.now low.now high.now used) s a b) result }
    ensures fact { result ≡ 0 → get_or letter.now s 0 ≡ terminal_letter → ⊥ }
{
    let i = s as usize;
    if letter[i] == TERMINAL {
        return by_terminal(low, s, a, b) + 1;
    }
    if a == b {
        return a + 1;
    }
    if a != 1 {
        return 0;
    }
    if s != b {
        return 0;
    }
    s + 1
}

// The same, and what the cache has.
fn known(
    letter: &[u32],
    low: &[u32],
    high: &[u32],
    used: u32,
    k: u32,
    s: u32,
    a: u32,
    b: u32,
    cache: &[u32],
) -> u32
    requires legible { Legible k letter.now low.now high.now used × (s < used) × (a < used) × (b < used) }
    requires caches { Caches (chosen k) k (held letter.now low.now high.now used) cache.now }
    ensures found { Found k (held letter.now low.now high.now used) (chosen k (held letter.now low.now high.now used) s a b) result }
    ensures fact { result ≡ 0 → get_or letter.now s 0 ≡ terminal_letter → ⊥ }
{
    let e = at_once(letter, low, high, used, k, s, a, b);
    if e != 0 {
        return e;
    }
    cache::look(cache, s, a, b)
}

// The choice by selector `s` of entries `a` and `b`, all with letters among the last `left` of the k, with a cache of those before.
fn choose_in(
    letter: &mut [u32],
    low: &mut [u32],
    high: &mut [u32],
    index: &mut [u32],
    used: u32,
    k: u32,
    s: u32,
    a: u32,
    b: u32,
    left: u32,
    cache: &mut [u32],
) -> Put
    requires fact { Open k letter.old low.old high.old index.old used }
    requires operand { Operand k (held letter.old low.old high.old used) used left s × Operand k (held letter.old low.old high.old used) used left a × Operand k (held letter.old low.old high.old used) used left b }
    requires caches { Caches (chosen k) k (held letter.old low.old high.old used) cache.old }
    ensures outcome { Outcome (held letter.old low.old high.old used) (store k 0 (chosen k (held letter.old low.old high.old used) s a b) (held letter.old low.old high.old used)) letter.new low.new high.new index.new result }
    ensures caches_2 { stopped result.stop ≡ false → Caches (chosen k) k (held letter.new low.new high.new result.used) cache.new }
{
    let e = known(letter, low, high, used, k, s, a, b, cache);
    if e != 0 {
        return Put {
            stop: Stop::Going,
            entry: e - 1,
            used,
        };
    }
    let m = first_of(letter, s, a, b);
    let ps = parts(letter, low, high, m, s);
    let pa = parts(letter, low, high, m, a);
    let pb = parts(letter, low, high, m, b);
    let p = choose_in(
        letter,
        low,
        high,
        index,
        used,
        k,
        ps.low,
        pa.low,
        pb.low,
        left - 1,
        cache,
    );
    let why = p.stop;
    if stopped(why) {
        return p;
    }
    let q = choose_in(
        letter,
        low,
        high,
        index,
        p.used,
        k,
        ps.high,
        pa.high,
        pb.high,
        left - 1,
        cache,
    );
    let why = q.stop;
    if stopped(why) {
        return q;
    }
    join_kept(
        letter, low, high, index, q.used, m, p.entry, q.entry, cache, s, a, b,
    )
}

// The choice by selector `s` of entries `a` and `b`, all with letters among the last `left` of the k.
pub fn choose(
    letter: &mut [u32],
    low: &mut [u32],
    high: &mut [u32],
    index: &mut [u32],
    used: u32,
    k: u32,
    s: u32,
    a: u32,
    b: u32,
    left: u32,
) -> Put
    requires fact { Open k letter.old low.old high.old index.old used }
    requires operand { Operand k (held letter.old low.old high.old used) used left s × Operand k (held letter.old low.old high.old used) used left a × Operand k (held letter.old low.old high.old used) used left b }
    ensures { Outcome (held letter.old low.old high.old used) (store k 0 (chosen k (held letter.old low.old high.old used) s a b) (held letter.old low.old high.old used)) letter.new low.new high.new index.new result }
{
    let e = at_once(letter, low, high, used, k, s, a, b);
    if e != 0 {
        return Put {
            stop: Stop::Going,
            entry: e - 1,
            used,
        };
    }
    let mut cache: [u32; WORDS] = [0; WORDS];
    choose_in(letter, low, high, index, used, k, s, a, b, left, &mut cache)
}
