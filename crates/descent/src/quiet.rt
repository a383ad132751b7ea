// The next change where no node is a seed: the pending change with T taken out.
ghost use Rattle.diagram.specs.Store.{store};
ghost use Rattle.diagram.specs.Held.{held};
ghost use Rattle.table.specs.Holds.{Outcome};
ghost use Rattle.functions.specs.Open.{Legible, Open, Operand};
ghost use Rattle.descent.specs.Settle.{pending_by};

use functions::numbers::TERMINAL;
use functions::step::join;
use plain::settle::pending_after;
use table::{Put, stopped};

// Entry `e` of the working columns, whose letters are among the last `left` of the k, with T taken out.
pub fn quiet(
    wletter: &[u32],
    wlow: &[u32],
    whigh: &[u32],
    wused: u32,
    letter: &mut [u32],
    low: &mut [u32],
    high: &mut [u32],
    index: &mut [u32],
    used: u32,
    k: u32,
    time: u32,
    e: u32,
    left: u32,
) -> Put
    requires legible { Legible k wletter.now wlow.now whigh.now wused × Operand k (held wletter.now wlow.now whigh.now wused) wused left e }
    requires fact { Open k letter.old low.old high.old index.old used }
    ensures { Outcome (held letter.old low.old high.old used) (store k 0 (pending_by time k (held wletter.now wlow.now whigh.now wused) e) (held letter.old low.old high.old used)) letter.new low.new high.new index.new result }
{
    let i = e as usize;
    let m = wletter[i];
    let a = wlow[i];
    let b = whigh[i];
    if m == TERMINAL {
        let v = pending_after(time, a);
        return table::add(letter, low, high, index, used, TERMINAL, v, 0);
    }
    let p = quiet(
        wletter,
        wlow,
        whigh,
        wused,
        letter,
        low,
        high,
        index,
        used,
        k,
        time,
        a,
        left - 1,
    );
    let why = p.stop;
    if stopped(why) {
        return p;
    }
    let q = quiet(
        wletter,
        wlow,
        whigh,
        wused,
        letter,
        low,
        high,
        index,
        p.used,
        k,
        time,
        b,
        left - 1,
    );
    let why = q.stop;
    if stopped(why) {
        return q;
    }
    join(letter, low, high, index, q.used, m, p.entry, q.entry)
}
