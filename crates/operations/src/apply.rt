// The operations on two functions that act number by number: one recursion for all.
ghost use Rattle.std.specs.Prelude.{◌≡◌, false, ◌<◌, length, get_or};
ghost use Rattle.diagram.specs.Table.{terminal};
ghost use Rattle.diagram.specs.Store.{add as addOf, store};
ghost use Rattle.diagram.specs.Operation.{sum as sum_of, apply as applyOf, applied};
ghost use Rattle.diagram.specs.Held.{held};
ghost use Rattle.table.specs.Holds.{Holds, Outcome};
ghost use Rattle.table.specs.Stop.{stopped};
ghost use Rattle.functions.specs.Open.{Open, Operand};
ghost use Rattle.functions.specs.Known.{Caches};

use cache::WORDS;
use diagram::Operation;
use functions::numbers::{NEVER, TERMINAL, flip, least};
use functions::step::{first_letter, join_kept, parts};
use table::{Put, Stop, stopped};

// The sum: never where either is, else at most the number before it.
fn sum(x: u32, y: u32) -> u32
    ensures { result ≡ sum_of x y }
{
    if x == NEVER {
        return NEVER;
    }
    if y == NEVER {
        return NEVER;
    }
    if x < NEVER - 1 - y {
        return x + y;
    }
    NEVER - 1
}

// The operation on two numbers.
fn apply_numbers(o: Operation, x: u32, y: u32) -> u32
    ensures { result ≡ applyOf o x y }
{
    match o {
        Operation::Smaller => least(x, y),
        Operation::Sum => sum(x, y),
        Operation::Flip(n) => flip(n, x, y),
    }
}

// Two terminals: the terminal of the operation's number.
fn leaf(
    letter: &mut [u32],
    low: &mut [u32],
    high: &mut [u32],
    index: &mut [u32],
    used: u32,
    o: Operation,
    a: u32,
    b: u32,
) -> Put
    requires a_in_bounds { (a < length low.old) × (b < length low.old) }
    requires holds { Holds letter.old low.old high.old index.old (held letter.old low.old high.old used) used }
    ensures { Outcome (held letter.old low.old high.old used) (addOf (terminal (applyOf o (get_or low.old a 0) (get_or low.old b 0))) (held letter.old low.old high.old used)) letter.new low.new high.new index.new result }
{
    let i = a as usize;
    let j = b as usize;
    let v = apply_numbers(o, low[i], low[j]);
    table::add(letter, low, high, index, used, TERMINAL, v, 0)
}

// The operation on entries `a` and `b`, whose letters are among the last `left` of the k, with a cache of those before.
fn apply_in(
    letter: &mut [u32],
    low: &mut [u32],
    high: &mut [u32],
    index: &mut [u32],
    used: u32,
    k: u32,
    o: Operation,
    a: u32,
    b: u32,
    left: u32,
    cache: &mut [u32],
) -> Put
    requires fact { Open k letter.old low.old high.old index.old used }
    requires operand { Operand k (held letter.old low.old high.old used) used left a × Operand k (held letter.old low.old high.old used) used left b }
    requires caches { Caches (λ t a b _. applied k t o a b) k (held letter.old low.old high.old used) cache.old }
    ensures outcome { Outcome (held letter.old low.old high.old used) (store k 0 (applied k (held letter.old low.old high.old used) o a b) (held letter.old low.old high.old used)) letter.new low.new high.new index.new result }
    ensures caches_2 { stopped result.stop ≡ false → Caches (λ t a b _. applied k t o a b) k (held letter.new low.new high.new result.used) cache.new }
{
    let m = first_letter(letter, a, b);
    if m == TERMINAL {
        return leaf(letter, low, high, index, used, o, a, b);
    }
    let e = cache::look(cache, a, b, 0);
    if e != 0 {
        return Put {
            stop: Stop::Going,
            entry: e - 1,
            used,
        };
    }
    let pa = parts(letter, low, high, m, a);
    let pb = parts(letter, low, high, m, b);
    let p = apply_in(
        letter,
        low,
        high,
        index,
        used,
        k,
        o,
        pa.low,
        pb.low,
        left - 1,
        cache,
    );
    let why = p.stop;
    if stopped(why) {
        return p;
    }
    let q = apply_in(
        letter,
        low,
        high,
        index,
        p.used,
        k,
        o,
        pa.high,
        pb.high,
        left - 1,
        cache,
    );
    let why = q.stop;
    if stopped(why) {
        return q;
    }
    join_kept(
        letter, low, high, index, q.used, m, p.entry, q.entry, cache, a, b, 0,
    )
}

// The operation on entries `a` and `b`, whose letters are among the last `left` of the k.
pub fn apply(
    letter: &mut [u32],
    low: &mut [u32],
    high: &mut [u32],
    index: &mut [u32],
    used: u32,
    k: u32,
    o: Operation,
    a: u32,
    b: u32,
    left: u32,
) -> Put
    requires fact { Open k letter.old low.old high.old index.old used }
    requires operand { Operand k (held letter.old low.old high.old used) used left a × Operand k (held letter.old low.old high.old used) used left b }
    ensures { Outcome (held letter.old low.old high.old used) (store k 0 (applied k (held letter.old low.old high.old used) o a b) (held letter.old low.old high.old used)) letter.new low.new high.new index.new result }
{
    let mut cache: [u32; WORDS] = [0; WORDS];
    apply_in(letter, low, high, index, used, k, o, a, b, left, &mut cache)
}
