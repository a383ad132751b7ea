// Step rule 1 for all patterns: inputs scheduled at T take their source, inner nodes flip where their next change is T.
ghost use Rattle.std.specs.Prelude.{◌≡◌, true, map, ℕ, suc, ◌+◌, ◌<◌};
ghost use Rattle.diagram.specs.Store.{store};
ghost use Rattle.diagram.specs.Held.{held};
ghost use Rattle.table.specs.Holds.{Outcome};
ghost use Rattle.functions.specs.Open.{Open};
ghost use Rattle.rules.specs.State.{value_at, node_numbers};
ghost use Rattle.rules.specs.Step.{stepped};
ghost use Rattle.rules.specs.Run.{store_all, state_of, run_sound};
ghost use Rattle.record.specs.Record.{run_of};
ghost use Rattle.record.specs.Leasts.{Leasts};
ghost use Rattle.net.specs.Net.{nodes_place, letters_place, at as at_place, net_circuit};
ghost use Rattle.net.specs.Laid.{Laid};
ghost use Rattle.values.specs.All.{OutcomeAll};
ghost use Rattle.values.specs.Arriving.{input_after, value_after};

use crate::Many;
use crate::flip::flip;
use crate::source::source;
use net::inner::is_input;
use net::schedule::{NONE, source_at};
use record::Run;
use table::{Put, Stop, stopped};

// The value of input n after T: its source where one is scheduled, else the present entry.
fn input_value(
    net: &[u32],
    letter: &mut [u32],
    low: &mut [u32],
    high: &mut [u32],
    index: &mut [u32],
    used: u32,
    time: u32,
    n: u32,
    value: u32,
) -> Put
    requires { Laid (net_circuit net.now) net.now × Open (at_place net.now letters_place) letter.old low.old high.old index.old used × (value < used) }
    ensures { Outcome (held letter.old low.old high.old used) (store (at_place net.now letters_place) 0 (input_after (at_place net.now letters_place) (net_circuit net.now) (held letter.old low.old high.old used) time n value) (held letter.old low.old high.old used)) letter.new low.new high.new index.new result }
{
    let byte = source_at(net, time, n);
    if byte == NONE {
        return Put {
            stop: Stop::Going,
            entry: value,
            used,
        };
    }
    source(letter, low, high, index, used, net[net::LETTERS], byte)
}

// The value of node n after T: an input takes its source, an inner node flips where its next change is T.
fn value_after(
    net: &[u32],
    letter: &mut [u32],
    low: &mut [u32],
    high: &mut [u32],
    index: &mut [u32],
    used: u32,
    time: u32,
    n: u32,
    value: u32,
    change: u32,
    least: &[u32],
) -> Put
    requires laid { Laid (net_circuit net.now) net.now × Open (at_place net.now letters_place) letter.old low.old high.old index.old used }
    requires n_bound { (n < 2 + at_place net.now nodes_place) × (value < used) × (change < used) }
    requires leasts { Leasts (at_place net.now letters_place) (held letter.old low.old high.old used) (suc change) least.now }
    ensures { Outcome (held letter.old low.old high.old used) (store (at_place net.now letters_place) 0 (value_after (at_place net.now letters_place) (net_circuit net.now) (held letter.old low.old high.old used) time n value change) (held letter.old low.old high.old used)) letter.new low.new high.new index.new result }
{
    if is_input(net, n) {
        return input_value(net, letter, low, high, index, used, time, n, value);
    }
    let k = net[net::LETTERS];
    flip(
        letter, low, high, index, used, k, time, value, change, k, least,
    )
}

// The values after all of T, in node order.
pub fn arrive(
    net: &[u32],
    letter: &mut [u32],
    low: &mut [u32],
    high: &mut [u32],
    index: &mut [u32],
    r: Run,
    time: u32,
    least: &[u32],
) -> Many
    requires laid { Laid (net_circuit net.now) net.now × Open (at_place net.now letters_place) letter.old low.old high.old index.old r.used }
    requires r_value { run_sound (net_circuit net.now) (held letter.old low.old high.old r.used) (run_of (net_circuit net.now) r) ≡ true }
    requires leasts { Leasts (at_place net.now letters_place) (held letter.old low.old high.old r.used) r.used least.now }
    ensures { OutcomeAll (held letter.old low.old high.old r.used) (store_all (at_place net.now letters_place) (map (λ (n : ℕ) (p : ℕ). value_at (stepped (net_circuit net.now) time p (state_of (net_circuit net.now) (held letter.old low.old high.old r.used) (run_of (net_circuit net.now) r) p)) n) (node_numbers (net_circuit net.now))) (held letter.old low.old high.old r.used)) letter.new low.new high.new index.new result.stop result.used result.entries }
{
    let count = net[net::NODES] as usize;
    let values = r.values;
    let changes = r.changes;
    let mut out = [0u32; 24];
    let mut now = r.used;
    for i in 0..count {
        let n = 2 + i as u32;
        let p = value_after(
            net, letter, low, high, index, now, time, n, values[i], changes[i], least,
        );
        let why = p.stop;
        if stopped(why) {
            return Many {
                stop: why,
                used: now,
                entries: out,
            };
        }
        out[i] = p.entry;
        now = p.used;
    }
    Many {
        stop: Stop::Going,
        used: now,
        entries: out,
    }
}
