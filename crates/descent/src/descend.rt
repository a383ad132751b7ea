// The descent: the halves of all roots at their least letter, low first, then high, then the root entry.
ghost use Rattle.std.specs.Prelude.{◌≡◌, false, get_or};
ghost use Rattle.diagram.specs.Table.{terminal};
ghost use Rattle.diagram.specs.Store.{add as addOf, store};
ghost use Rattle.diagram.specs.Held.{held};
ghost use Rattle.net.specs.Net.{net_circuit};
ghost use Rattle.table.specs.Holds.{Holds, Outcome};
ghost use Rattle.table.specs.Stop.{stopped};
ghost use Rattle.functions.specs.Open.{Open};
ghost use Rattle.descent.specs.Settle.{settled_at, settled_by};
ghost use Rattle.descent.specs.Live.{Live};
ghost use Rattle.descent.specs.Memo.{Memo};
ghost use Rattle.descent.specs.Descend.{LeafOf, Rooted, low_of};

use crate::PLACES;
use crate::live::{all_places, halve, least_live, live_numbers, narrow, some_seed};
use crate::memo::{MEMO, bucket, forget, look, remember};
use crate::quiet::quiet;
use crate::settle::{reached, settled};
use functions::numbers::TERMINAL;
use functions::step::join;
use net::roots::{PENDING, ROOTS};
use table::{Put, Stop, stopped};

// All roots are terminals: the terminal of what their numbers settle.
fn leaf(
    net: &[u32],
    wlow: &[u32],
    roots: &[u32; ROOTS],
    live: &[u32; ROOTS],
    count: u32,
    time: u32,
    n: u32,
    letter: &mut [u32],
    low: &mut [u32],
    high: &mut [u32],
    index: &mut [u32],
    used: u32,
) -> Put
    requires leaf_of { LeafOf net.now n wlow.now roots.now × (get_or wlow.now 0 0 ≡ 0) }
    requires live { Live roots.now live.now count }
    requires holds { Holds letter.old low.old high.old index.old (held letter.old low.old high.old used) used }
    ensures { Outcome (held letter.old low.old high.old used) (addOf (terminal (settled_at (net_circuit net.now) time n (low_of wlow.now roots.now))) (held letter.old low.old high.old used)) letter.new low.new high.new index.new result }
{
    let numbers = live_numbers(wlow, roots, live, count);
    let moves = reached(net, &numbers, n);
    let v = settled(net, &numbers, moves, time, n);
    table::add(letter, low, high, index, used, TERMINAL, v, 0)
}

// The next change of node n at every pattern, by the roots in the working columns, whose letters are among the last `left` of the k,
// with the list of those that are not entry 0, and a memo of the entries of roots that were met before.
fn down(
    net: &[u32],
    wletter: &[u32],
    wlow: &[u32],
    whigh: &[u32],
    wused: u32,
    letter: &mut [u32],
    low: &mut [u32],
    high: &mut [u32],
    index: &mut [u32],
    used: u32,
    k: u32,
    time: u32,
    n: u32,
    roots: &[u32; ROOTS],
    live: &[u32; ROOTS],
    count: u32,
    left: u32,
    memo: &mut [u32],
) -> Put
    requires rooted { Rooted net.now n k wletter.now wlow.now whigh.now wused roots.now left }
    requires live { Live roots.now live.now count }
    requires fact { Open k letter.old low.old high.old index.old used }
    requires memo { Memo (settled_by (net_circuit net.now) time n k (held wletter.now wlow.now whigh.now wused)) k (held letter.old low.old high.old used) memo.old }
    ensures outcome { Outcome (held letter.old low.old high.old used) (store k 0 (settled_by (net_circuit net.now) time n k (held wletter.now wlow.now whigh.now wused) roots.now) (held letter.old low.old high.old used)) letter.new low.new high.new index.new result }
    ensures memo_2 { stopped result.stop ≡ false → Memo (settled_by (net_circuit net.now) time n k (held wletter.now wlow.now whigh.now wused)) k (held letter.new low.new high.new result.used) memo.new }
{
    if !some_seed(roots, live, count) {
        let e = roots[PENDING];
        return quiet(
            wletter, wlow, whigh, wused, letter, low, high, index, used, k, time, e, left,
        );
    }
    let mut kept: [u32; ROOTS] = [0; ROOTS];
    let mut list: [u32; ROOTS] = [0; ROOTS];
    let total = narrow(net, n, roots, live, count, &mut kept, &mut list);
    if (total != count) && !some_seed(&kept, &list, total) {
        let e = kept[PENDING];
        return quiet(
            wletter, wlow, whigh, wused, letter, low, high, index, used, k, time, e, left,
        );
    }
    let m = least_live(wletter, &kept, &list, total);
    let slot = bucket(&kept, &list, total);
    let old = look(memo, slot, &kept);
    if old != 0 {
        return Put {
            stop: Stop::Going,
            entry: old - 1,
            used,
        };
    }
    if m == TERMINAL {
        let p = leaf(
            net, wlow, &kept, &list, total, time, n, letter, low, high, index, used,
        );
        return remember(memo, slot, &kept, p);
    }
    let mut half: [u32; ROOTS] = [0; ROOTS];
    halve(wletter, wlow, &kept, &list, total, m, &mut half);
    let p = down(
        net,
        wletter,
        wlow,
        whigh,
        wused,
        letter,
        low,
        high,
        index,
        used,
        k,
        time,
        n,
        &half,
        &list,
        total,
        left - 1,
        memo,
    );
    let why = p.stop;
    if stopped(why) {
        return p;
    }
    halve(wletter, whigh, &kept, &list, total, m, &mut half);
    let q = down(
        net,
        wletter,
        wlow,
        whigh,
        wused,
        letter,
        low,
        high,
        index,
        p.used,
        k,
        time,
        n,
        &half,
        &list,
        total,
        left - 1,
        memo,
    );
    let why = q.stop;
    if stopped(why) {
        return q;
    }
    let r = join(letter, low, high, index, q.used, m, p.entry, q.entry);
    remember(memo, slot, &kept, r)
}

// The next change of node n at every pattern, by the roots in the working columns, whose letters are among the last `left` of the k,
// with a memo of its own.
fn alone(
    net: &[u32],
    wletter: &[u32],
    wlow: &[u32],
    whigh: &[u32],
    wused: u32,
    letter: &mut [u32],
    low: &mut [u32],
    high: &mut [u32],
    index: &mut [u32],
    used: u32,
    k: u32,
    time: u32,
    n: u32,
    roots: &[u32; ROOTS],
    left: u32,
) -> Put
    requires rooted { Rooted net.now n k wletter.now wlow.now whigh.now wused roots.now left }
    requires fact { Open k letter.old low.old high.old index.old used }
    ensures { Outcome (held letter.old low.old high.old used) (store k 0 (settled_by (net_circuit net.now) time n k (held wletter.now wlow.now whigh.now wused) roots.now) (held letter.old low.old high.old used)) letter.new low.new high.new index.new result }
{
    let live = all_places();
    let mut memo: [u32; MEMO] = [0; MEMO];
    down(
        net, wletter, wlow, whigh, wused, letter, low, high, index, used, k, time, n, roots, &live,
        PLACES, left, &mut memo,
    )
}

// The next change of node n at every pattern, by the roots in the working columns, whose letters are among the last `left` of the k.
// The lent numbers may be any: they serve as its memo where they are enough.
pub fn descend(
    net: &[u32],
    wletter: &[u32],
    wlow: &[u32],
    whigh: &[u32],
    wused: u32,
    letter: &mut [u32],
    low: &mut [u32],
    high: &mut [u32],
    index: &mut [u32],
    used: u32,
    k: u32,
    time: u32,
    n: u32,
    roots: &[u32; ROOTS],
    left: u32,
    memo: &mut [u32],
) -> Put
    requires rooted { Rooted net.now n k wletter.now wlow.now whigh.now wused roots.now left }
    requires fact { Open k letter.old low.old high.old index.old used }
    ensures { Outcome (held letter.old low.old high.old used) (store k 0 (settled_by (net_circuit net.now) time n k (held wletter.now wlow.now whigh.now wused) roots.now) (held letter.old low.old high.old used)) letter.new low.new high.new index.new result }
{
    if memo.len() < MEMO {
        return alone(
            net, wletter, wlow, whigh, wused, letter, low, high, index, used, k, time, n, roots,
            left,
        );
    }
    let live = all_places();
    forget(memo);
    down(
        net, wletter, wlow, whigh, wused, letter, low, high, index, used, k, time, n, roots, &live,
        PLACES, left, memo,
    )
}
