// The run record as a value, and what is read off a run and its table: soundness, the time of the next step, the run question.
// Promise: each is that of the definitions of `rules`, for the cell that the flat column lays out and the table that the columns hold.
// Internal to our crates: a call refuses first, and shows what is required here.
#![tactic(auto)]

mod entries;
pub mod least;
mod places;

ghost use Rattle.std.specs.Prelude.{◌≡◌, true, ◌+◌, ◌<◌, ◌≤◌, length};
ghost use Rattle.rules.specs.State.{value_at, change_at};
ghost use Rattle.rules.specs.Run.{state_of, time_after, run_sound};
ghost use Rattle.functions.specs.Open.{Legible};
ghost use Rattle.net.specs.Laid.{Laid};
ghost use Rattle.net.specs.Net.{nodes_place, letters_place, at, net_circuit};
ghost use Rattle.record.specs.Record.{run_of};
ghost use Rattle.record.specs.Moments.{moment_held};
ghost use Rattle.diagram.specs.Held.{held};
ghost use Rattle.record.specs.Leasts.{Leasts};

use functions::numbers;
use net::quantities::horizon;
use operations::read;

// The time, the used count, and for each node record the entries of its value and of its next change. Places past the node
// records are not looked at.
#[repr(C)]
#[derive(Clone, Copy)]
pub struct Run {
    pub time: u32,
    pub used: u32,
    pub values: [u32; 24],
    pub changes: [u32; 24],
}

// The answer of a run question.
#[derive(Clone, Copy)]
pub struct Wire {
    pub value: u32,
    pub change: u32,
}

// Whether a run is sound with its table.
pub fn run_sound(net: &[u32], letter: &[u32], low: &[u32], high: &[u32], r: Run) -> bool
    requires { Laid (net_circuit net.now) net.now × Legible (at net.now letters_place) letter.now low.now high.now r.used }
    ensures { result ≡ run_sound (net_circuit net.now) (held letter.now low.now high.now r.used) (run_of (net_circuit net.now) r) }
{
    let n = net[net::NODES];
    let k = net[net::LETTERS];
    let last = horizon(net);
    let most = last.0 as u32;
    let time = r.time;
    let used = r.used;
    let values = r.values;
    let changes = r.changes;
    if most < time {
        return false;
    }
    if !entries::entries_among(letter, low, high, used, k, values, n, 0, 1, 0) {
        return false;
    }
    if !entries::entries_among(
        letter,
        low,
        high,
        used,
        k,
        changes,
        n,
        time,
        most,
        numbers::NEVER,
    ) {
        return false;
    }
    places::inputs_rest(net, changes)
}

// The time of the next step, or never; the column of least numbers is filled in from entry `done` on.
pub fn time_after(
    net: &[u32],
    letter: &[u32],
    low: &[u32],
    high: &[u32],
    r: Run,
    least: &mut [u32],
    done: u32,
) -> u32
    requires laid { Laid (net_circuit net.now) net.now × Legible (at net.now letters_place) letter.now low.now high.now r.used × (run_sound (net_circuit net.now) (held letter.now low.now high.now r.used) (run_of (net_circuit net.now) r) ≡ true) }
    requires done_le_used { (done ≤ r.used) × (r.used ≤ length least.old) × Leasts (at net.now letters_place) (held letter.now low.now high.now r.used) done least.old }
    ensures { (result ≡ time_after (net_circuit net.now) (moment_held letter.now low.now high.now (run_of (net_circuit net.now) r))) × (length least.new ≡ length least.old) × Leasts (at net.now letters_place) (held letter.now low.now high.now r.used) r.used least.new }
{
    let n = net[net::NODES];
    let k = net[net::LETTERS];
    let time = r.time;
    let used = r.used;
    let changes = r.changes;
    least::fill(letter, low, high, used, k, least, done);
    let pending = least::least_among(least, changes, n);
    let scheduled = places::scheduled_after(net, time);
    numbers::least(pending, scheduled)
}

// The value and the next change of node `n` at pattern `p`; rails are among the nodes.
pub fn wire_at(
    net: &[u32],
    letter: &[u32],
    low: &[u32],
    high: &[u32],
    r: Run,
    n: u32,
    p: u32,
) -> Wire
    requires { Laid (net_circuit net.now) net.now × Legible (at net.now letters_place) letter.now low.now high.now r.used × (run_sound (net_circuit net.now) (held letter.now low.now high.now r.used) (run_of (net_circuit net.now) r) ≡ true) × (n < 2 + at net.now nodes_place) }
    ensures { (result.value ≡ value_at (state_of (net_circuit net.now) (held letter.now low.now high.now r.used) (run_of (net_circuit net.now) r) p) n) × (result.change ≡ change_at (state_of (net_circuit net.now) (held letter.now low.now high.now r.used) (run_of (net_circuit net.now) r) p) n) }
{
    if n < 2 {
        return Wire {
            value: n,
            change: numbers::NEVER,
        };
    }
    let i = (n - 2) as usize;
    let k = net[net::LETTERS];
    let used = r.used;
    let values = r.values;
    let changes = r.changes;
    let value = read::number(letter, low, high, used, k, values[i], p);
    let change = read::number(letter, low, high, used, k, changes[i], p);
    Wire { value, change }
}
