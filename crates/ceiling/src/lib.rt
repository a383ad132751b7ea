// Whether a start or a step exceeds the ceiling at any pattern (document 02, wish 3), tried one pattern after the other by the rules of one pattern.
// Promise: the answers are `start_within` and `step_within` of crate rules, for the cell that the flat column lays out and the run that the columns hold.
// Internal to our crates: used only where a table is full, which is rare, since each pattern costs the start or the step of a whole cell.
#![tactic(auto)]

ghost use Rattle.std.specs.Prelude.{◌≡◌, true, ◌<◌, ◌≤◌};
ghost use Rattle.diagram.specs.Held.{held};
ghost use Rattle.diagram.specs.Pattern.{most_letters, patterns as patterns_of};
ghost use Rattle.rules.specs.Step.{step_exceeds};
ghost use Rattle.rules.specs.Run.{state_of, time_after, start_within, step_within, run_sound};
ghost use Rattle.functions.specs.Open.{Legible};
ghost use Rattle.net.specs.Laid.{Laid};
ghost use Rattle.net.specs.Net.{letters_place, at, net_circuit};
ghost use Rattle.plain.specs.Pattern.{shown, Bits, NoneExceeded};
ghost use Rattle.record.specs.Record.{run_of};
ghost use Rattle.record.specs.Moments.{moment_held};

use net::{LETTERS, NODES};
use plain::change::NEVER;
use plain::{State, step};
use record::{Run, wire_at};

// How many patterns k letters have.
fn patterns(k: u32) -> u32
    requires { k ≤ most_letters }
    ensures { result ≡ patterns_of k }
{
    1 << k
}

// The state of pattern p that a run holds.
fn state_at(net: &[u32], letter: &[u32], low: &[u32], high: &[u32], r: Run, p: u32) -> State
    requires { Laid (net_circuit net.now) net.now × Legible (at net.now letters_place) letter.now low.now high.now r.used × (run_sound (net_circuit net.now) (held letter.now low.now high.now r.used) (run_of (net_circuit net.now) r) ≡ true) × (p < patterns_of (at net.now letters_place)) }
    ensures { (shown (net_circuit net.now) result ≡ state_of (net_circuit net.now) (held letter.now low.now high.now r.used) (run_of (net_circuit net.now) r) p) × Bits (net_circuit net.now) result.values × NoneExceeded (net_circuit net.now) result.changes }
{
    let mut values = [0u32; 26];
    values[1] = 1;
    let mut changes = [NEVER; 26];
    for n in 2..2 + net[NODES] {
        let wire = wire_at(net, letter, low, high, r, n, p);
        values[n as usize] = wire.value;
        changes[n as usize] = wire.change;
    }
    State { values, changes }
}

// Whether the step of a run to a time exceeds the ceiling at pattern p.
fn step_exceeds(
    net: &[u32],
    letter: &[u32],
    low: &[u32],
    high: &[u32],
    r: Run,
    time: u32,
    p: u32,
) -> bool
    requires { Laid (net_circuit net.now) net.now × Legible (at net.now letters_place) letter.now low.now high.now r.used × (run_sound (net_circuit net.now) (held letter.now low.now high.now r.used) (run_of (net_circuit net.now) r) ≡ true) × (p < patterns_of (at net.now letters_place)) }
    ensures { result ≡ step_exceeds (net_circuit net.now) time p (state_of (net_circuit net.now) (held letter.now low.now high.now r.used) (run_of (net_circuit net.now) r) p) }
{
    let state = state_at(net, letter, low, high, r, p);
    step::step(net, state, time, p).is_err()
}

// Whether the start stays within the ceiling at every pattern.
pub fn start_within(net: &[u32]) -> bool
    requires { Laid (net_circuit net.now) net.now }
    ensures { result ≡ start_within (net_circuit net.now) }
{
    for p in 0..patterns(net[LETTERS]) {
        if step::start(net, p).is_err() {
            return false;
        }
    }
    true
}

// Whether the step of a run to its next time stays within the ceiling at every pattern.
pub fn step_within(
    net: &[u32],
    letter: &[u32],
    low: &[u32],
    high: &[u32],
    r: Run,
    time: u32,
) -> bool
    requires { Laid (net_circuit net.now) net.now × Legible (at net.now letters_place) letter.now low.now high.now r.used × (run_sound (net_circuit net.now) (held letter.now low.now high.now r.used) (run_of (net_circuit net.now) r) ≡ true) × (time ≡ time_after (net_circuit net.now) (moment_held letter.now low.now high.now (run_of (net_circuit net.now) r))) }
    ensures { result ≡ step_within (net_circuit net.now) (moment_held letter.now low.now high.now (run_of (net_circuit net.now) r)) }
{
    for p in 0..patterns(net[LETTERS]) {
        if step_exceeds(net, letter, low, high, r, time, p) {
            return false;
        }
    }
    true
}
