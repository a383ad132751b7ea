// Next changes by the roots of a step in the working columns, and at rest for the nodes that it stirs nothing for.
ghost use Rattle.std.specs.Prelude.{suc, ◌<◌};
ghost use Rattle.diagram.specs.Store.{store};
ghost use Rattle.diagram.specs.Held.{held};
ghost use Rattle.table.specs.Holds.{Outcome};
ghost use Rattle.functions.specs.Open.{Open};
ghost use Rattle.net.specs.Net.{letters_place, at as at_place, net_circuit};
ghost use Rattle.plain.specs.Ready.{Noded};
ghost use Rattle.record.specs.Leasts.{Leasts};
ghost use Rattle.stir.specs.Pending.{PendingEntries, PendingLeasts};
ghost use Rattle.marked.specs.ByRoots.{settled_for, StepRoots};
ghost use Rattle.marked.specs.Mixed.{mixed_with, MixedAll};

use attempt::roots_for;
use descent::descend::descend;
use net::inner::is_inner;
use net::roots::ALL_ROOTS;
use stir::rest::{NEVER, at_rest};
use table::{Put, Stop, stopped};
use values::Many;

// The next change of node n. The descent's memo lies in `memo`, which may hold anything.
fn by_roots(
    net: &[u32],
    wletter: &[u32],
    wlow: &[u32],
    whigh: &[u32],
    wused: u32,
    letter: &mut [u32],
    low: &mut [u32],
    high: &mut [u32],
    index: &mut [u32],
    used: u32,
    time: u32,
    n: u32,
    roots: [u32; ALL_ROOTS],
    memo: &mut [u32],
) -> Put
    requires { StepRoots net.now wletter.now wlow.now whigh.now wused roots × Noded net.now n × Open (at_place net.now letters_place) letter.old low.old high.old index.old used }
    ensures { Outcome (held letter.old low.old high.old used) (store (at_place net.now letters_place) 0 (settled_for (net_circuit net.now) time (at_place net.now letters_place) (held wletter.now wlow.now whigh.now wused) roots n) (held letter.old low.old high.old used)) letter.new low.new high.new index.new result }
{
    if !is_inner(net, n) {
        return Put {
            stop: Stop::Going,
            entry: NEVER,
            used,
        };
    }
    let k = net[net::LETTERS];
    let own = roots_for(roots, n as usize);
    descend(
        net, wletter, wlow, whigh, wused, letter, low, high, index, used, k, time, n, &own, k, memo,
    )
}

// The next change of node n by its mark and its pending change `e`: at rest without a mark.
fn by_mark(
    net: &[u32],
    wletter: &[u32],
    wlow: &[u32],
    whigh: &[u32],
    wused: u32,
    letter: &mut [u32],
    low: &mut [u32],
    high: &mut [u32],
    index: &mut [u32],
    used: u32,
    time: u32,
    n: u32,
    roots: [u32; ALL_ROOTS],
    mark: u32,
    e: u32,
    least: &[u32],
    memo: &mut [u32],
) -> Put
    requires { StepRoots net.now wletter.now wlow.now whigh.now wused roots × Noded net.now n × Open (at_place net.now letters_place) letter.old low.old high.old index.old used × (e < used) × Leasts (at_place net.now letters_place) (held letter.old low.old high.old used) (suc e) least.now }
    ensures { Outcome (held letter.old low.old high.old used) (store (at_place net.now letters_place) 0 (mixed_with (net_circuit net.now) time (at_place net.now letters_place) (held letter.old low.old high.old used) (held wletter.now wlow.now whigh.now wused) roots mark e n) (held letter.old low.old high.old used)) letter.new low.new high.new index.new result }
{
    if mark == 0 {
        return at_rest(net, letter, low, high, index, used, time, n, e, least);
    }
    by_roots(
        net, wletter, wlow, whigh, wused, letter, low, high, index, used, time, n, roots, memo,
    )
}

// All next changes by the marks of the nodes, in node order.
pub fn all_by_marks(
    net: &[u32],
    wletter: &[u32],
    wlow: &[u32],
    whigh: &[u32],
    wused: u32,
    letter: &mut [u32],
    low: &mut [u32],
    high: &mut [u32],
    index: &mut [u32],
    used: u32,
    time: u32,
    roots: [u32; ALL_ROOTS],
    marks: [u32; 26],
    pending: [u32; 26],
    least: &[u32],
    memo: &mut [u32],
) -> Many
    requires { StepRoots net.now wletter.now wlow.now whigh.now wused roots × Open (at_place net.now letters_place) letter.old low.old high.old index.old used × PendingEntries used pending × PendingLeasts (at_place net.now letters_place) (held letter.old low.old high.old used) pending least.now }
    ensures { MixedAll net.now time (held wletter.now wlow.now whigh.now wused) roots marks pending used letter.old low.old high.old letter.new low.new high.new index.new result }
{
    let count = net[net::NODES] as usize;
    let mut out = [0u32; 24];
    let mut now = used;
    for i in 0..count {
        let p = by_mark(
            net,
            wletter,
            wlow,
            whigh,
            wused,
            letter,
            low,
            high,
            index,
            now,
            time,
            i as u32 + 2,
            roots,
            marks[i + 2],
            pending[i + 2],
            least,
            memo,
        );
        let why = p.stop;
        if stopped(why) {
            return Many {
                stop: why,
                used: now,
                entries: out,
            };
        }
        out[i] = p.entry;
        now = p.used;
    }
    Many {
        stop: Stop::Going,
        used: now,
        entries: out,
    }
}
