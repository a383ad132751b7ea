// Every step not later than a time.
ghost use Rattle.std.specs.Prelude.{◌≡◌, true, ◌≤◌, length, take};
ghost use Rattle.lists.specs.Padded.{padded};
ghost use Rattle.diagram.specs.Call.{columns};
ghost use Rattle.diagram.specs.Held.{held};
ghost use Rattle.table.specs.Holds.{Lent};
ghost use Rattle.functions.specs.Open.{Open};
ghost use Rattle.rules.specs.Run.{run_moment, run_sound};
ghost use Rattle.rules.specs.Call.{moment_given};
ghost use Rattle.record.specs.Record.{run_of, record_of};
ghost use Rattle.net.specs.Net.{letters_place, at as at_place, net_circuit};
ghost use Rattle.net.specs.Laid.{Laid};
ghost use Rattle.admit.specs.Reached.{Reached};

use admit::step;
use functions::numbers::NEVER;
use record::{Run, time_after};
use refusal::Refusal;

// The first entries, 0 past them.
fn firsts(entries: [u32; 24], count: usize) -> [u32; 24]
    requires { count ≤ 24 }
    ensures { result ≡ padded 24 0 (take count entries) }
{
    let mut out = [0u32; 24];
    out[..count].copy_from_slice(&entries[..count]);
    out
}

// The run with zeros past the node records.
fn tidy(net: &[u32], r: Run) -> Run
    requires { Laid (net_circuit net.now) net.now }
    ensures { result ≡ record_of (run_of (net_circuit net.now) r) }
{
    let count = net[net::NODES] as usize;
    let values = r.values;
    let changes = r.changes;
    Run {
        time: r.time,
        used: r.used,
        values: firsts(values, count),
        changes: firsts(changes, count),
    }
}

// The steps of a run up to a picosecond, in a sound table beside its index. A step only appends entries, so the least numbers of those
// before it stay.
pub fn steps(
    net: &[u32],
    letter: &mut [u32],
    low: &mut [u32],
    high: &mut [u32],
    index: &mut [u32],
    r: Run,
    wletter: &mut [u32],
    wlow: &mut [u32],
    whigh: &mut [u32],
    windex: &mut [u32],
    until: u32,
) -> Result<Run, Refusal>
    requires laid { Laid (net_circuit net.now) net.now × Open (at_place net.now letters_place) letter.old low.old high.old index.old r.used × Lent wletter.old wlow.old whigh.old windex.old }
    requires r_value { run_sound (net_circuit net.now) (held letter.old low.old high.old r.used) (run_of (net_circuit net.now) r) ≡ true }
    ensures { Reached (held letter.old low.old high.old r.used) (run_moment (net_circuit net.now).horizon.0 (net_circuit net.now) until (length letter.old) (moment_given (columns letter.old low.old high.old) (run_of (net_circuit net.now) r))) letter.new low.new high.new index.new result }
{
    let mut now = tidy(net, r);
    let mut least = [0u32; 65536];
    let mut time = time_after(net, letter, low, high, now, &mut least, 0);
    // A `while`: it counts nothing; and `&`, so that it ends in one place.
    while (time != NEVER) & (time <= until) {
        let after = step(
            net, letter, low, high, index, now, wletter, wlow, whigh, windex, time, &mut least,
        )?;
        let done = after.used;
        now = after;
        time = time_after(net, letter, low, high, now, &mut least, done);
    }
    Ok(now)
}
