// A start and a step over all patterns with the refusals that rank last: 11, where a walk exceeds the ceiling at some pattern, then 6.
// Promise: the result, a refusal or the run, and the table where there is no refusal, are those of `start_answer` and `step_answer` of the definitions.
// A next change of 0 among those that were stored tells of 11; where the table is full, each pattern is tried by itself. Internal to our crates.
#![tactic(auto)]

ghost use Rattle.std.specs.Prelude.{◌≡◌, true, cond, ◌≤◌, length, Ok, Err, IfOk};
ghost use Rattle.diagram.specs.Held.{held};
ghost use Rattle.refusal.specs.declared.Refusal.TheVariants.{Ceiling};
ghost use Rattle.table.specs.Holds.{Lent};
ghost use Rattle.functions.specs.Open.{Legible, Open};
ghost use Rattle.rules.specs.Run.{start_answer, step_answer, time_after, run_sound};
ghost use Rattle.record.specs.declared.Run.{Run};
ghost use Rattle.record.specs.Record.{run_of};
ghost use Rattle.record.specs.Moments.{moment_held};
ghost use Rattle.record.specs.Leasts.{Leasts};
ghost use Rattle.net.specs.Net.{letters_place, at as at_place, net_circuit};
ghost use Rattle.net.specs.Laid.{Laid};
ghost use Rattle.admit.specs.Reached.{Reached};
ghost use Rattle.admit.specs.Judged.{crowding, Judged, Judgeable};

use ceiling::{start_within, step_within};
use moment;
use plain::settle::EXCEEDED;
use record::least::{fill, least_among};
use record::{Run, run_sound};
use refusal::Refusal;
use table::stopped;

// No run, where the table is full: 11 before 6.
fn crowded(within: bool) -> Refusal
    ensures { result ≡ crowding within }
{
    if within {
        return Refusal::Full;
    }
    Refusal::Ceiling
}

// The run that was stored, unless a walk exceeds.
fn judged(run: Run, within: bool) -> Result<Run, Refusal>
    ensures { result ≡ cond within (Ok run) (Err Ceiling) }
{
    if within {
        return Ok(run);
    }
    Err(Refusal::Ceiling)
}

// Whether no next change of a stored run is 0. The least numbers of the entries from `done` on are filled in.
fn times_only(
    net: &[u32],
    letter: &[u32],
    low: &[u32],
    high: &[u32],
    run: Run,
    least: &mut [u32],
    done: u32,
) -> bool
    requires { Laid (net_circuit net.now) net.now × Legible (at_place net.now letters_place) letter.now low.now high.now run.used × Judgeable net.now letter.now low.now high.now run least.old done }
    ensures { Judged net.now letter.now low.now high.now run least.old least.new result }
{
    let n = net[net::NODES];
    let k = net[net::LETTERS];
    let used = run.used;
    let changes = run.changes;
    fill(letter, low, high, used, k, least, done);
    least_among(least, changes, n) != EXCEEDED
}

// A start. What was stored is a sound run exactly if no walk exceeds: 0 is no time after 0.
pub fn start(
    net: &[u32],
    letter: &mut [u32],
    low: &mut [u32],
    high: &mut [u32],
    index: &mut [u32],
    used: u32,
    wletter: &mut [u32],
    wlow: &mut [u32],
    whigh: &mut [u32],
    windex: &mut [u32],
) -> Result<Run, Refusal>
    requires { Laid (net_circuit net.now) net.now × Open (at_place net.now letters_place) letter.old low.old high.old index.old used × Lent wletter.old wlow.old whigh.old windex.old }
    ensures { Reached (held letter.old low.old high.old used) (start_answer (net_circuit net.now) (length letter.old) (held letter.old low.old high.old used)) letter.new low.new high.new index.new result }
{
    let next = moment::start(
        net, letter, low, high, index, used, wletter, wlow, whigh, windex,
    );
    let stop = next.stop;
    let run = next.run;
    if stopped(stop) {
        return Err(crowded(start_within(net)));
    }
    judged(run, run_sound(net, letter, low, high, run))
}

// A step to T. `least` has the least numbers of the run's entries, and afterwards those of the next one's.
pub fn step(
    net: &[u32],
    letter: &mut [u32],
    low: &mut [u32],
    high: &mut [u32],
    index: &mut [u32],
    r: Run,
    wletter: &mut [u32],
    wlow: &mut [u32],
    whigh: &mut [u32],
    windex: &mut [u32],
    time: u32,
    least: &mut [u32],
) -> Result<Run, Refusal>
    requires laid { Laid (net_circuit net.now) net.now × Open (at_place net.now letters_place) letter.old low.old high.old index.old r.used × Lent wletter.old wlow.old whigh.old windex.old × (length letter.old ≤ length least.old) }
    requires r_value { (run_sound (net_circuit net.now) (held letter.old low.old high.old r.used) (run_of (net_circuit net.now) r) ≡ true) × (time ≡ time_after (net_circuit net.now) (moment_held letter.old low.old high.old (run_of (net_circuit net.now) r))) × Leasts (at_place net.now letters_place) (held letter.old low.old high.old r.used) r.used least.old }
    ensures reached { Reached (held letter.old low.old high.old r.used) (step_answer (net_circuit net.now) (length letter.old) (moment_held letter.old low.old high.old (run_of (net_circuit net.now) r))) letter.new low.new high.new index.new result }
    ensures least_len_unchanged { (length least.new ≡ length least.old) × IfOk result (λ (run : Run). Leasts (at_place net.now letters_place) (held letter.new low.new high.new run.used) run.used least.new) }
{
    let next = moment::step(
        net, letter, low, high, index, r, wletter, wlow, whigh, windex, time, least,
    );
    let stop = next.stop;
    let run = next.run;
    if stopped(stop) {
        return Err(crowded(step_within(net, letter, low, high, r, time)));
    }
    judged(run, times_only(net, letter, low, high, run, least, r.used))
}
