// All next changes by functions in the working table, where it has room for those of the marked nodes.
ghost use Rattle.std.specs.Prelude.{◌≡◌, true};
ghost use Rattle.diagram.specs.Call.{columns, lengths_legal};
ghost use Rattle.table.specs.Holds.{Lent};
ghost use Rattle.attempt.specs.Room.{Roomy};
ghost use Rattle.functions.specs.Open.{Open};
ghost use Rattle.net.specs.Net.{letters_place, at as at_place, net_circuit};
ghost use Rattle.net.specs.Laid.{Laid};
ghost use Rattle.stir.specs.Pending.{PendingEntries, PendingLeasts};
ghost use Rattle.stir.specs.Marks.{NodeMarks};
ghost use Rattle.marked.specs.Changes.{ValueEntries};
ghost use Rattle.marked.specs.Tries.{TriedAll};
ghost use Rattle.diagram.specs.Held.{held};

use crate::nodes::all_by_marks;
use attempt::{MOST, smaller};
use prepare::prepare;
use stir::reads::{masked, needed};
use table::{Stop, stopped};
use values::Many;

// What was stored, unless working had no room.
#[derive(Clone, Copy)]
pub struct Tried {
    pub done: bool,
    pub many: Many,
}

// By functions in the columns lent; where these have no room for them, nothing is stored.
// They take no more entries once all functions are there, so that the descents' memo may lie in their index and in the numbers past it.
fn try_in(
    net: &[u32],
    letter: &mut [u32],
    low: &mut [u32],
    high: &mut [u32],
    index: &mut [u32],
    used: u32,
    wletter: &mut [u32],
    wlow: &mut [u32],
    whigh: &mut [u32],
    windex: &mut [u32],
    time: u32,
    all: bool,
    before: [u32; 26],
    after: [u32; 26],
    pending: [u32; 26],
    marks: [u32; 26],
    least: &[u32],
) -> Tried
    requires laid { Laid (net_circuit net.now) net.now × Open (at_place net.now letters_place) letter.old low.old high.old index.old used × Roomy wletter.old wlow.old whigh.old windex.old }
    requires value_entries { ValueEntries (at_place net.now letters_place) (held letter.old low.old high.old used) used before × ValueEntries (at_place net.now letters_place) (held letter.old low.old high.old used) used after × PendingEntries used pending × NodeMarks net.now before after all marks × PendingLeasts (at_place net.now letters_place) (held letter.old low.old high.old used) pending least.now }
    ensures { TriedAll net.now time all before after pending used letter.old low.old high.old index.old letter.new low.new high.new index.new result }
{
    let k = net[net::LETTERS];
    let left = masked(marks, pending);
    let need = needed(net, marks);
    let was = masked(need, before);
    let is = masked(need, after);
    let places = 2 * wletter.len();
    let q = prepare(
        net,
        letter,
        low,
        high,
        used,
        wletter,
        wlow,
        whigh,
        &mut windex[..places],
        k,
        was,
        is,
        left,
        all,
        0,
    );
    let why = q.stop;
    if stopped(why) {
        return Tried {
            done: false,
            many: Many {
                stop: Stop::Going,
                used,
                entries: [0u32; 24],
            },
        };
    }
    let roots = q.roots;
    let many = all_by_marks(
        net, wletter, wlow, whigh, q.used, letter, low, high, index, used, time, roots, marks,
        pending, least, windex,
    );
    Tried { done: true, many }
}

// The same in the first entries of working: a few are cleared and gone through in less time than all.
fn try_first(
    net: &[u32],
    letter: &mut [u32],
    low: &mut [u32],
    high: &mut [u32],
    index: &mut [u32],
    used: u32,
    wletter: &mut [u32],
    wlow: &mut [u32],
    whigh: &mut [u32],
    windex: &mut [u32],
    time: u32,
    all: bool,
    before: [u32; 26],
    after: [u32; 26],
    pending: [u32; 26],
    marks: [u32; 26],
    least: &[u32],
) -> Tried
    requires laid { Laid (net_circuit net.now) net.now × Open (at_place net.now letters_place) letter.old low.old high.old index.old used × Lent wletter.old wlow.old whigh.old windex.old }
    requires value_entries { ValueEntries (at_place net.now letters_place) (held letter.old low.old high.old used) used before × ValueEntries (at_place net.now letters_place) (held letter.old low.old high.old used) used after × PendingEntries used pending × NodeMarks net.now before after all marks × PendingLeasts (at_place net.now letters_place) (held letter.old low.old high.old used) pending least.now }
    ensures { TriedAll net.now time all before after pending used letter.old low.old high.old index.old letter.new low.new high.new index.new result }
{
    let size = smaller(wletter.len());
    try_in(
        net,
        letter,
        low,
        high,
        index,
        used,
        &mut wletter[..size],
        &mut wlow[..size],
        &mut whigh[..size],
        windex,
        time,
        all,
        before,
        after,
        pending,
        marks,
        least,
    )
}

// The same in all entries of working. Their long index is made only here: all of it is cleared, and most steps do with the first entries.
fn try_all(
    net: &[u32],
    letter: &mut [u32],
    low: &mut [u32],
    high: &mut [u32],
    index: &mut [u32],
    used: u32,
    wletter: &mut [u32],
    wlow: &mut [u32],
    whigh: &mut [u32],
    time: u32,
    all: bool,
    before: [u32; 26],
    after: [u32; 26],
    pending: [u32; 26],
    marks: [u32; 26],
    least: &[u32],
) -> Tried
    requires laid { Laid (net_circuit net.now) net.now × Open (at_place net.now letters_place) letter.old low.old high.old index.old used × (lengths_legal (columns wletter.old wlow.old whigh.old) ≡ true) }
    requires value_entries { ValueEntries (at_place net.now letters_place) (held letter.old low.old high.old used) used before × ValueEntries (at_place net.now letters_place) (held letter.old low.old high.old used) used after × PendingEntries used pending × NodeMarks net.now before after all marks × PendingLeasts (at_place net.now letters_place) (held letter.old low.old high.old used) pending least.now }
    ensures { TriedAll net.now time all before after pending used letter.old low.old high.old index.old letter.new low.new high.new index.new result }
{
    let mut long = [0u32; 131072];
    try_in(
        net, letter, low, high, index, used, wletter, wlow, whigh, &mut long, time, all, before,
        after, pending, marks, least,
    )
}

// In the first entries of working, or else in all of it.
pub fn by_functions(
    net: &[u32],
    letter: &mut [u32],
    low: &mut [u32],
    high: &mut [u32],
    index: &mut [u32],
    used: u32,
    wletter: &mut [u32],
    wlow: &mut [u32],
    whigh: &mut [u32],
    windex: &mut [u32],
    time: u32,
    all: bool,
    before: [u32; 26],
    after: [u32; 26],
    pending: [u32; 26],
    marks: [u32; 26],
    least: &[u32],
) -> Tried
    requires laid { Laid (net_circuit net.now) net.now × Open (at_place net.now letters_place) letter.old low.old high.old index.old used × Lent wletter.old wlow.old whigh.old windex.old }
    requires value_entries { ValueEntries (at_place net.now letters_place) (held letter.old low.old high.old used) used before × ValueEntries (at_place net.now letters_place) (held letter.old low.old high.old used) used after × PendingEntries used pending × NodeMarks net.now before after all marks × PendingLeasts (at_place net.now letters_place) (held letter.old low.old high.old used) pending least.now }
    ensures { TriedAll net.now time all before after pending used letter.old low.old high.old index.old letter.new low.new high.new index.new result }
{
    let first = try_first(
        net, letter, low, high, index, used, wletter, wlow, whigh, windex, time, all, before,
        after, pending, marks, least,
    );
    if first.done | (wletter.len() <= MOST) {
        return first;
    }
    try_all(
        net, letter, low, high, index, used, wletter, wlow, whigh, time, all, before, after,
        pending, marks, least,
    )
}
