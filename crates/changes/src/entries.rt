// Next changes by entries of the lent table.
ghost use Rattle.std.specs.Prelude.{◌≡◌, map};
ghost use Rattle.diagram.specs.Store.{store};
ghost use Rattle.diagram.specs.Held.{held};
ghost use Rattle.table.specs.Holds.{Lent, Outcome};
ghost use Rattle.functions.specs.Open.{Open};
ghost use Rattle.rules.specs.State.{node_numbers};
ghost use Rattle.rules.specs.Run.{store_all};
ghost use Rattle.net.specs.Net.{letters_place, at as at_place, net_circuit};
ghost use Rattle.plain.specs.Ready.{Net, Noded};
ghost use Rattle.attempt.specs.Entries.{Evaluable};
ghost use Rattle.values.specs.All.{OutcomeAll};
ghost use Rattle.stir.specs.Pending.{PendingEntries};
ghost use Rattle.marked.specs.Changes.{entries_with, change_with, change_of, ValueEntries};

use evaluate::split::evaluate;
use net::inner::is_inner;
use net::roots::{AFTER, CHANGE, ROOTS};
use stir::rest::NEVER;
use table::{Put, Stop, stopped};
use values::Many;

// The entries by which a node with a pending change is evaluated.
fn entries_with(before: [u32; 26], after: [u32; 26], change: u32) -> [u32; ROOTS]
    ensures { result ≡ entries_with before after change }
{
    let mut out = [0u32; ROOTS];
    out[..AFTER].copy_from_slice(&before);
    out[AFTER..CHANGE].copy_from_slice(&after);
    out[CHANGE] = change;
    out
}

// The next change of node n.
fn by_entries(
    net: &[u32],
    letter: &mut [u32],
    low: &mut [u32],
    high: &mut [u32],
    index: &mut [u32],
    used: u32,
    wletter: &mut [u32],
    wlow: &mut [u32],
    whigh: &mut [u32],
    windex: &mut [u32],
    time: u32,
    all: bool,
    n: u32,
    entries: &[u32; ROOTS],
) -> Put
    requires { Net net.now × Noded net.now n × Open (at_place net.now letters_place) letter.old low.old high.old index.old used × Evaluable (at_place net.now letters_place) (held letter.old low.old high.old used) used (at_place net.now letters_place) entries.now × Lent wletter.old wlow.old whigh.old windex.old }
    ensures { Outcome (held letter.old low.old high.old used) (store (at_place net.now letters_place) 0 (change_with (net_circuit net.now) time all (at_place net.now letters_place) (held letter.old low.old high.old used) entries.now n) (held letter.old low.old high.old used)) letter.new low.new high.new index.new result }
{
    if !is_inner(net, n) {
        return Put {
            stop: Stop::Going,
            entry: NEVER,
            used,
        };
    }
    let k = net[net::LETTERS];
    evaluate(
        net, letter, low, high, index, used, wletter, wlow, whigh, windex, time, all, n, entries, k,
    )
}

// All next changes, in node order.
pub fn all_by_entries(
    net: &[u32],
    letter: &mut [u32],
    low: &mut [u32],
    high: &mut [u32],
    index: &mut [u32],
    used: u32,
    wletter: &mut [u32],
    wlow: &mut [u32],
    whigh: &mut [u32],
    windex: &mut [u32],
    time: u32,
    all: bool,
    before: [u32; 26],
    after: [u32; 26],
    pending: [u32; 26],
) -> Many
    requires net { Net net.now × Open (at_place net.now letters_place) letter.old low.old high.old index.old used × Lent wletter.old wlow.old whigh.old windex.old }
    requires value_entries { ValueEntries (at_place net.now letters_place) (held letter.old low.old high.old used) used before × ValueEntries (at_place net.now letters_place) (held letter.old low.old high.old used) used after × PendingEntries used pending }
    ensures { OutcomeAll (held letter.old low.old high.old used) (store_all (at_place net.now letters_place) (map (change_of (net_circuit net.now) time all (at_place net.now letters_place) (held letter.old low.old high.old used) before after pending) (node_numbers (net_circuit net.now))) (held letter.old low.old high.old used)) letter.new low.new high.new index.new result.stop result.used result.entries }
{
    let count = net[net::NODES] as usize;
    let mut out = [0u32; 24];
    let mut now = used;
    for i in 0..count {
        let entries = entries_with(before, after, pending[i + 2]);
        let p = by_entries(
            net,
            letter,
            low,
            high,
            index,
            now,
            wletter,
            wlow,
            whigh,
            windex,
            time,
            all,
            i as u32 + 2,
            &entries,
        );
        let why = p.stop;
        if stopped(why) {
            return Many {
                stop: why,
                used: now,
                entries: out,
            };
        }
        out[i] = p.entry;
        now = p.used;
    }
    Many {
        stop: Stop::Going,
        used: now,
        entries: out,
    }
}
