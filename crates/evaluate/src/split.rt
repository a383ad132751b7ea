// A node letter by letter, as far as working is too small.
ghost use Rattle.std.specs.Prelude.{◌≤◌};
ghost use Rattle.diagram.specs.Store.{store};
ghost use Rattle.diagram.specs.Held.{held};
ghost use Rattle.net.specs.Net.{letters_place, at as at_place, net_circuit};
ghost use Rattle.table.specs.Holds.{Lent, Outcome};
ghost use Rattle.functions.specs.Open.{Open};
ghost use Rattle.plain.specs.Ready.{Net};
ghost use Rattle.descent.specs.Descend.{Inner, Entries};
ghost use Rattle.attempt.specs.Attempted.{Attempted};
ghost use Rattle.attempt.specs.Change.{change_by};
ghost use Rattle.attempt.specs.Entries.{Evaluable};
ghost use Rattle.evaluate.specs.Left.{Left};

use crate::pattern::leaf;
use attempt::{Tried, attempt};
use descent::letters::{halves, least_letter};
use functions::step::join;
use net::roots::ROOTS;
use table::{Put, Stop, stopped};

// With fewer letters left the rule for each of the patterns is cheaper than functions.
pub const FEW: u32 = 8;

// The letters from the least one of the entries on.
fn letters_left(net: &[u32], letter: &[u32], entries: &[u32; ROOTS]) -> u32
    requires { Net net.now × Entries letter.now entries.now }
    ensures { Left (at_place net.now letters_place) letter.now entries.now result }
{
    let k = net[net::LETTERS];
    let m = least_letter(letter, entries);
    if k <= m {
        return 0;
    }
    k - m
}

// By functions, where many letters are left and working has room for them; otherwise nothing is stored.
fn tried(
    net: &[u32],
    letter: &mut [u32],
    low: &mut [u32],
    high: &mut [u32],
    index: &mut [u32],
    used: u32,
    wletter: &mut [u32],
    wlow: &mut [u32],
    whigh: &mut [u32],
    windex: &mut [u32],
    time: u32,
    all: bool,
    n: u32,
    entries: &[u32; ROOTS],
    left: u32,
) -> Tried
    requires { Inner net.now n × Open (at_place net.now letters_place) letter.old low.old high.old index.old used × Evaluable (at_place net.now letters_place) (held letter.old low.old high.old used) used (at_place net.now letters_place) entries.now × Lent wletter.old wlow.old whigh.old windex.old }
    ensures { Attempted net.now time all n entries.now used letter.old low.old high.old index.old letter.new low.new high.new index.new result }
{
    if left < FEW {
        return Tried {
            done: false,
            put: Put {
                stop: Stop::Going,
                entry: 0,
                used,
            },
        };
    }
    attempt(
        net, letter, low, high, index, used, wletter, wlow, whigh, windex, time, all, n, entries,
    )
}

// The next change of node n at every pattern, by entries whose letters are among the last `left`.
pub fn evaluate(
    net: &[u32],
    letter: &mut [u32],
    low: &mut [u32],
    high: &mut [u32],
    index: &mut [u32],
    used: u32,
    wletter: &mut [u32],
    wlow: &mut [u32],
    whigh: &mut [u32],
    windex: &mut [u32],
    time: u32,
    all: bool,
    n: u32,
    entries: &[u32; ROOTS],
    left: u32,
) -> Put
    requires { Inner net.now n × Open (at_place net.now letters_place) letter.old low.old high.old index.old used × Evaluable (at_place net.now letters_place) (held letter.old low.old high.old used) used left entries.now × Lent wletter.old wlow.old whigh.old windex.old × (left ≤ at_place net.now letters_place) }
    ensures { Outcome (held letter.old low.old high.old used) (store (at_place net.now letters_place) 0 (change_by (net_circuit net.now) time all n (at_place net.now letters_place) (held letter.old low.old high.old used) entries.now) (held letter.old low.old high.old used)) letter.new low.new high.new index.new result }
{
    let some = letters_left(net, letter, entries);
    if some == 0 {
        return leaf(net, letter, low, high, index, used, time, all, n, entries);
    }
    let a = tried(
        net, letter, low, high, index, used, wletter, wlow, whigh, windex, time, all, n, entries,
        some,
    );
    if a.done {
        return a.put;
    }
    let m = net[net::LETTERS] - some;
    let lows = halves(letter, low, entries, m);
    let highs = halves(letter, high, entries, m);
    let p = evaluate(
        net,
        letter,
        low,
        high,
        index,
        used,
        wletter,
        wlow,
        whigh,
        windex,
        time,
        all,
        n,
        &lows,
        some - 1,
    );
    let why = p.stop;
    if stopped(why) {
        return p;
    }
    let q = evaluate(
        net,
        letter,
        low,
        high,
        index,
        p.used,
        wletter,
        wlow,
        whigh,
        windex,
        time,
        all,
        n,
        &highs,
        some - 1,
    );
    let why = q.stop;
    if stopped(why) {
        return q;
    }
    join(letter, low, high, index, q.used, m, p.entry, q.entry)
}
