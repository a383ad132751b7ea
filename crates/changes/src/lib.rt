// The next changes of all nodes over all patterns, stored in node order (document 01, step rules 2 to 7).
// Promise: what is stored is exactly `store_all` of `change_of` for every node, which says too where a walk exceeds the ceiling; where it does not fit, that it stopped for want of room.
// Internal to our crates: at rest the pending changes with T taken out (crate stir); else by functions made once for all nodes that are not (crate marked), or node by node where working has no room for them.
#![tactic(auto)]

ghost use Rattle.std.specs.Prelude.{map};
ghost use Rattle.table.specs.Holds.{Lent};
ghost use Rattle.functions.specs.Open.{Open};
ghost use Rattle.rules.specs.State.{node_numbers};
ghost use Rattle.rules.specs.Run.{store_all};
ghost use Rattle.net.specs.Net.{letters_place, at as at_place, net_circuit};
ghost use Rattle.net.specs.Laid.{Laid};
ghost use Rattle.values.specs.All.{OutcomeAll};
ghost use Rattle.stir.specs.Pending.{PendingEntries, PendingLeasts};
ghost use Rattle.marked.specs.Changes.{change_of, ValueEntries};
ghost use Rattle.diagram.specs.Held.{held};

mod entries;

use entries::all_by_entries;
use marked::tries::by_functions;
use stir::marks::{stirred, stirred_nodes};
use stir::rest::all_at_rest;
use values::Many;

// The next changes at T with every node looked at.
fn reconsider(
    net: &[u32],
    letter: &mut [u32],
    low: &mut [u32],
    high: &mut [u32],
    index: &mut [u32],
    used: u32,
    wletter: &mut [u32],
    wlow: &mut [u32],
    whigh: &mut [u32],
    windex: &mut [u32],
    time: u32,
    all: bool,
    before: [u32; 26],
    after: [u32; 26],
    pending: [u32; 26],
    least: &[u32],
) -> Many
    requires laid { Laid (net_circuit net.now) net.now × Open (at_place net.now letters_place) letter.old low.old high.old index.old used × Lent wletter.old wlow.old whigh.old windex.old }
    requires value_entries { ValueEntries (at_place net.now letters_place) (held letter.old low.old high.old used) used before × ValueEntries (at_place net.now letters_place) (held letter.old low.old high.old used) used after × PendingEntries used pending × PendingLeasts (at_place net.now letters_place) (held letter.old low.old high.old used) pending least.now }
    ensures { OutcomeAll (held letter.old low.old high.old used) (store_all (at_place net.now letters_place) (map (change_of (net_circuit net.now) time all (at_place net.now letters_place) (held letter.old low.old high.old used) before after pending) (node_numbers (net_circuit net.now))) (held letter.old low.old high.old used)) letter.new low.new high.new index.new result.stop result.used result.entries }
{
    let marks = stirred_nodes(net, &before, &after, all);
    let tried = by_functions(
        net, letter, low, high, index, used, wletter, wlow, whigh, windex, time, all, before,
        after, pending, marks, least,
    );
    if tried.done {
        let many = tried.many;
        return many;
    }
    all_by_entries(
        net, letter, low, high, index, used, wletter, wlow, whigh, windex, time, all, before,
        after, pending,
    )
}

// The next changes at T, by entries of the lent table by node number; every inner node is reconsidered where `all`.
// `least` has the least numbers of the pending changes.
pub fn changes(
    net: &[u32],
    letter: &mut [u32],
    low: &mut [u32],
    high: &mut [u32],
    index: &mut [u32],
    used: u32,
    wletter: &mut [u32],
    wlow: &mut [u32],
    whigh: &mut [u32],
    windex: &mut [u32],
    time: u32,
    all: bool,
    before: [u32; 26],
    after: [u32; 26],
    pending: [u32; 26],
    least: &[u32],
) -> Many
    requires laid { Laid (net_circuit net.now) net.now × Open (at_place net.now letters_place) letter.old low.old high.old index.old used × Lent wletter.old wlow.old whigh.old windex.old }
    requires value_entries { ValueEntries (at_place net.now letters_place) (held letter.old low.old high.old used) used before × ValueEntries (at_place net.now letters_place) (held letter.old low.old high.old used) used after × PendingEntries used pending × PendingLeasts (at_place net.now letters_place) (held letter.old low.old high.old used) pending least.now }
    ensures { OutcomeAll (held letter.old low.old high.old used) (store_all (at_place net.now letters_place) (map (change_of (net_circuit net.now) time all (at_place net.now letters_place) (held letter.old low.old high.old used) before after pending) (node_numbers (net_circuit net.now))) (held letter.old low.old high.old used)) letter.new low.new high.new index.new result.stop result.used result.entries }
{
    if !all & !stirred(net, &before, &after) {
        return all_at_rest(net, letter, low, high, index, used, time, pending, least);
    }
    reconsider(
        net, letter, low, high, index, used, wletter, wlow, whigh, windex, time, all, before,
        after, pending, least,
    )
}
