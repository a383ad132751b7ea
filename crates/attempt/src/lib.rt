// The next change of one node over all patterns, by functions in the working table, where it has room for them.
// Promise: an attempt that was done has stored `change_by` at every pattern, with exactly its missing entries; any other has stored nothing.
// Internal to our crates: the length of working decides only which way is gone (crate evaluate has the other).
#![tactic(auto)]

ghost use Rattle.std.specs.Prelude.{◌≡◌, ◌<◌, ◌≤◌, min};
ghost use Rattle.diagram.specs.Held.{held};
ghost use Rattle.net.specs.Net.{letters_place, at as at_place};
ghost use Rattle.table.specs.Holds.{first_entries, Lent};
ghost use Rattle.functions.specs.Open.{Open};
ghost use Rattle.descent.specs.Descend.{Inner};
ghost use Rattle.attempt.specs.Attempted.{Attempted};
ghost use Rattle.attempt.specs.Entries.{Evaluable};
ghost use Rattle.attempt.specs.Places.{RootsFor, PartOf};
ghost use Rattle.attempt.specs.Room.{Roomy};

use descent::descend::descend;
use net::roots::{AFTER, ALL_ROOTS, CHANGE, PENDING, ROOTS};
use prepare::prepare;
use table::{Put, Stop, stopped};

// An attempt takes at most so many entries of working: one that fails there costs little beside the rule for each pattern.
pub const MOST: usize = 4096;

// What was stored, unless working had no room.
#[derive(Clone, Copy)]
pub struct Tried {
    pub done: bool,
    pub put: Put,
}

// The roots of a descent for node n among the roots of a step.
pub fn roots_for(roots: [u32; ALL_ROOTS], n: usize) -> [u32; ROOTS]
    requires { n < 26 }
    ensures { RootsFor roots n result }
{
    let mut out = [0u32; ROOTS];
    // By index: a proof is told no length of an array that is passed by value, so a slice of it has no bound.
    for j in 0..PENDING {
        out[j] = roots[j];
    }
    out[PENDING] = roots[PENDING + n];
    out
}

// 26 entries from a place on.
fn part(entries: &[u32; ROOTS], from: usize) -> [u32; 26]
    requires { from ≤ 66 }
    ensures { PartOf entries.now from result }
{
    let mut out = [0u32; 26];
    out.copy_from_slice(&entries[from..from + 26]);
    out
}

// Node n by the functions of its group in a working table; where it has no room for them, nothing is stored.
// The table takes no more entries by then, so that the descent's memo may lie in its index and in the numbers past it.
fn attempt_in(
    net: &[u32],
    letter: &mut [u32],
    low: &mut [u32],
    high: &mut [u32],
    index: &mut [u32],
    used: u32,
    wletter: &mut [u32],
    wlow: &mut [u32],
    whigh: &mut [u32],
    windex: &mut [u32],
    time: u32,
    all: bool,
    n: u32,
    entries: &[u32; ROOTS],
) -> Tried
    requires { Inner net.now n × Open (at_place net.now letters_place) letter.old low.old high.old index.old used × Evaluable (at_place net.now letters_place) (held letter.old low.old high.old used) used (at_place net.now letters_place) entries.now × Roomy wletter.old wlow.old whigh.old windex.old }
    ensures { Attempted net.now time all n entries.now used letter.old low.old high.old index.old letter.new low.new high.new index.new result }
{
    let k = net[net::LETTERS];
    let at = n as usize;
    let group = net[net::GROUP + at] as usize;
    let places = 2 * wletter.len();
    let q = prepare(
        net,
        letter,
        low,
        high,
        used,
        wletter,
        wlow,
        whigh,
        &mut windex[..places],
        k,
        part(entries, 0),
        part(entries, AFTER),
        [entries[CHANGE]; 26],
        all,
        group,
    );
    let why = q.stop;
    if stopped(why) {
        return Tried {
            done: false,
            put: Put {
                stop: Stop::Going,
                entry: 0,
                used,
            },
        };
    }
    let found = q.roots;
    let roots = roots_for(found, at);
    let put = descend(
        net, wletter, wlow, whigh, q.used, letter, low, high, index, used, k, time, n, &roots, k,
        windex,
    );
    Tried { done: true, put }
}

pub fn smaller(n: usize) -> usize
    ensures { result ≡ min n first_entries }
{
    n.min(MOST)
}

// Node n by the functions of its group in the first entries of working; where there is no room for them, nothing is stored.
pub fn attempt(
    net: &[u32],
    letter: &mut [u32],
    low: &mut [u32],
    high: &mut [u32],
    index: &mut [u32],
    used: u32,
    wletter: &mut [u32],
    wlow: &mut [u32],
    whigh: &mut [u32],
    windex: &mut [u32],
    time: u32,
    all: bool,
    n: u32,
    entries: &[u32; ROOTS],
) -> Tried
    requires { Inner net.now n × Open (at_place net.now letters_place) letter.old low.old high.old index.old used × Evaluable (at_place net.now letters_place) (held letter.old low.old high.old used) used (at_place net.now letters_place) entries.now × Lent wletter.old wlow.old whigh.old windex.old }
    ensures { Attempted net.now time all n entries.now used letter.old low.old high.old index.old letter.new low.new high.new index.new result }
{
    let size = smaller(wletter.len());
    attempt_in(
        net,
        letter,
        low,
        high,
        index,
        used,
        &mut wletter[..size],
        &mut wlow[..size],
        &mut whigh[..size],
        windex,
        time,
        all,
        n,
        entries,
    )
}
