// Start and step of one pattern.
ghost use Rattle.std.specs.Prelude.{◌≡◌, List, ℕ, ◌+◌, length};
ghost use Rattle.format.specs.Circuit.{first_node_number};
ghost use Rattle.diagram.specs.Table.{never};
ghost use Rattle.rules.specs.State as rules;
ghost use Rattle.rules.specs.Step.{started, start_exceeds, stepped, step_exceeds};
ghost use Rattle.net.specs.Net.{nodes_place, at as at_place, net_circuit};
ghost use Rattle.net.specs.Laid.{Laid};
ghost use Rattle.plain.specs.Settle.{change_between, Between, Showing};
ghost use Rattle.plain.specs.Exceeded.{any_exceeded};
ghost use Rattle.plain.specs.Pattern.{shown, shown_by, Bits, NoneExceeded, Filled, Goes};

use crate::State;
use crate::arrive::{sources, values_after};
use crate::change::NEVER;
use crate::keep::kept;
use crate::settle::{EXCEEDED, change_by};
use net::NODES;
use units::AboveCeiling;

// The next changes of all nodes between these values, 0 where a walk exceeds.
fn changes_after(
    net: &[u32],
    before: &[u32],
    after: &[u32],
    pending: &[u32],
    time: u32,
    all: bool,
) -> [u32; 26]
    requires { Between net.now before.now after.now × (length pending.now ≡ 26) }
    ensures { (s t : rules.State) → Showing net.now time before.now after.now pending.now s t → Filled never never (change_between (net_circuit net.now) time all s t) (first_node_number + at_place net.now nodes_place) result }
{
    let parts = kept(net, after);
    let leaf = parts.leaf;
    let labels = parts.labels;
    let mut changes = [NEVER; 26];
    for n in 2..2 + net[NODES] as usize {
        changes[n] = change_by(
            net, &leaf, &labels, before, after, pending[n], time, all, n as u32,
        );
    }
    changes
}

// Whether one of the next changes says that a walk exceeds.
fn any_exceeded(net: &[u32], changes: &[u32]) -> bool
    requires { Laid (net_circuit net.now) net.now × (length changes.now ≡ 26) }
    ensures { (values : List ℕ) → result ≡ any_exceeded (net_circuit net.now) (shown_by (net_circuit net.now) values changes.now) }
{
    let past = 2 + net[NODES] as usize;
    changes[2..past].contains(&EXCEEDED)
}

// The start of pattern p.
pub fn start(net: &[u32], p: u32) -> Result<State, AboveCeiling>
    requires { Laid (net_circuit net.now) net.now }
    ensures { Goes (net_circuit net.now) (start_exceeds (net_circuit net.now) p) (started (net_circuit net.now) p) result }
{
    let values = sources(net, p);
    let rest = [NEVER; 26];
    let changes = changes_after(net, &values, &values, &rest, 0, true);
    if any_exceeded(net, &changes) {
        return Err(AboveCeiling);
    }
    Ok(State { values, changes })
}

// The step of pattern p to a time.
pub fn step(net: &[u32], s: State, time: u32, p: u32) -> Result<State, AboveCeiling>
    requires { Laid (net_circuit net.now) net.now × Bits (net_circuit net.now) s.values × NoneExceeded (net_circuit net.now) s.changes }
    ensures { Goes (net_circuit net.now) (step_exceeds (net_circuit net.now) time p (shown (net_circuit net.now) s)) (stepped (net_circuit net.now) time p (shown (net_circuit net.now) s)) result }
{
    let old = s.values;
    let pending = s.changes;
    let values = values_after(net, &old, &pending, time, p);
    let changes = changes_after(net, &old, &values, &pending, time, false);
    if any_exceeded(net, &changes) {
        return Err(AboveCeiling);
    }
    Ok(State { values, changes })
}
