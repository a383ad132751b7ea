// A start and a step over all patterns, in lent columns beside their index.
// Promise: the run and the table afterwards are `start_moment` and `step_moment` of the definitions, but for 0 in the place of a next change where
// a walk exceeds the ceiling (specs/Exceeded.antt); where they do not fit, that it stopped for want of room.
// Internal to our crates: a call refuses first, and shows what is required here.
#![tactic(auto)]

ghost use Rattle.std.specs.Prelude.{◌≡◌, true, ◌≤◌};
ghost use Rattle.table.specs.Holds.{Lent};
ghost use Rattle.functions.specs.Open.{Open};
ghost use Rattle.rules.specs.Run.{time_after, run_sound};
ghost use Rattle.record.specs.Record.{run_of};
ghost use Rattle.record.specs.Moments.{moment_held};
ghost use Rattle.record.specs.Leasts.{Leasts};
ghost use Rattle.net.specs.Net.{letters_place, at as at_place, net_circuit};
ghost use Rattle.net.specs.Laid.{Laid};
ghost use Rattle.moment.specs.Exceeded.{start_or_exceeded, step_or_exceeded};
ghost use Rattle.moment.specs.ByNode.{ByNode, Gathers};
ghost use Rattle.moment.specs.Next.{NextAs};
ghost use Rattle.diagram.specs.Held.{held};

use changes::changes;
use functions::numbers::NEVER;
use record::Run;
use table::{Stop, stopped};
use values::Many;
use values::arrive::arrive;
use values::source::sources;

// The run after a start or a step, unless it stopped.
#[derive(Clone, Copy)]
pub struct Next {
    pub stop: Stop,
    pub run: Run,
}

// The first entries by node number behind those of the rails, 0 past them.
fn by_number(low: u32, supply: u32, entries: [u32; 24], count: usize) -> [u32; 26]
    requires { count ≤ 24 }
    ensures { ByNode low supply entries count result }
{
    let mut out = [0u32; 26];
    out[0] = low;
    out[1] = supply;
    out[2..2 + count].copy_from_slice(&entries[..count]);
    out
}

// No run, for a reason. Where the table is full, a start or a step has ended before every node was looked at: what ranks before 6 is left to the caller.
fn nothing(stop: Stop) -> Next
    ensures { result.stop ≡ stop }
{
    Next {
        stop,
        run: Run {
            time: 0,
            used: 0,
            values: [0u32; 24],
            changes: [0u32; 24],
        },
    }
}

// The run of values and next changes that were stored.
fn gathered(time: u32, values: [u32; 24], c: Many) -> Next
    ensures { Gathers time values c.stop c.used c.entries result.stop result.run }
{
    let why = c.stop;
    if stopped(why) {
        return nothing(why);
    }
    let changes = c.entries;
    Next {
        stop: why,
        run: Run {
            time,
            used: c.used,
            values,
            changes,
        },
    }
}

// A start: the sources, and every inner node reconsidered at time 0.
pub fn start(
    net: &[u32],
    letter: &mut [u32],
    low: &mut [u32],
    high: &mut [u32],
    index: &mut [u32],
    used: u32,
    wletter: &mut [u32],
    wlow: &mut [u32],
    whigh: &mut [u32],
    windex: &mut [u32],
) -> Next
    requires { Laid (net_circuit net.now) net.now × Open (at_place net.now letters_place) letter.old low.old high.old index.old used × Lent wletter.old wlow.old whigh.old windex.old }
    ensures { NextAs (held letter.old low.old high.old used) (start_or_exceeded (net_circuit net.now) (held letter.old low.old high.old used)) letter.new low.new high.new index.new result.stop result.run }
{
    let v = sources(net, letter, low, high, index, used);
    let why = v.stop;
    if stopped(why) {
        return nothing(why);
    }
    let count = net[net::NODES] as usize;
    let values = v.entries;
    let now = by_number(0, 1, values, count);
    let mut least = [0u32; 3];
    least[1] = 1;
    least[2] = NEVER;
    let c = changes(
        net, letter, low, high, index, v.used, wletter, wlow, whigh, windex, 0, true, now, now,
        [2u32; 26], &least,
    );
    gathered(0, values, c)
}

// A step to T: all of T happens, then the next changes. `least` has the least numbers of the run's entries.
pub fn step(
    net: &[u32],
    letter: &mut [u32],
    low: &mut [u32],
    high: &mut [u32],
    index: &mut [u32],
    r: Run,
    wletter: &mut [u32],
    wlow: &mut [u32],
    whigh: &mut [u32],
    windex: &mut [u32],
    time: u32,
    least: &[u32],
) -> Next
    requires laid { Laid (net_circuit net.now) net.now × Open (at_place net.now letters_place) letter.old low.old high.old index.old r.used × Lent wletter.old wlow.old whigh.old windex.old }
    requires r_value { (run_sound (net_circuit net.now) (held letter.old low.old high.old r.used) (run_of (net_circuit net.now) r) ≡ true) × (time ≡ time_after (net_circuit net.now) (moment_held letter.old low.old high.old (run_of (net_circuit net.now) r))) × Leasts (at_place net.now letters_place) (held letter.old low.old high.old r.used) r.used least.now }
    ensures { NextAs (held letter.old low.old high.old r.used) (step_or_exceeded (net_circuit net.now) (moment_held letter.old low.old high.old (run_of (net_circuit net.now) r))) letter.new low.new high.new index.new result.stop result.run }
{
    let v = arrive(net, letter, low, high, index, r, time, least);
    let why = v.stop;
    if stopped(why) {
        return nothing(why);
    }
    let count = net[net::NODES] as usize;
    let old = r.values;
    let waiting = r.changes;
    let new = v.entries;
    let c = changes(
        net,
        letter,
        low,
        high,
        index,
        v.used,
        wletter,
        wlow,
        whigh,
        windex,
        time,
        false,
        by_number(0, 1, old, count),
        by_number(0, 1, new, count),
        by_number(2, 2, waiting, count),
        least,
    );
    gathered(time, new, c)
}
