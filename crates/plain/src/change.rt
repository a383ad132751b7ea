// Step rules 5 to 7: the new value of a node, and its next change.
ghost use Rattle.std.specs.Prelude.{◌≡◌, cond, ◌+◌, ◌<◌, ◌^◌, min, leb, get_or};
ghost use Rattle.std.proofs.Math.Option.{none};
ghost use Rattle.diagram.specs.Table.{never};
ghost use Rattle.rules.specs.Sum.{infinite as infiniteOf, less as less_of, decided as decidedOf, undriven as undrivenOf, new_value};
ghost use Rattle.rules.specs.Delay.{in_ohms};
ghost use Rattle.net.specs.Net.{nodes_place};
ghost use Rattle.plain.specs.Leaf.{sum_of, leaf_sum, leaf_delay, leaf_move, leaf_next, Gives};
ghost use Rattle.plain.specs.Ready.{Noded, Ready};

use crate::Sum;
use crate::loads::node_load;
use crate::reads::{NONE, read};
use crate::sums::node_sum;
use net::NODES;
use net::quantities::horizon;
use units::{AboveCeiling, Ohms, Picoseconds, Resistance, delay};

// No next change.
pub const NEVER: u32 = 4294967295;

fn infinite(r: Resistance) -> bool
    ensures { result ≡ infiniteOf r }
{
    match r {
        Resistance::Infinite => true,
        Resistance::Finite(_) => false,
    }
}

fn less(a: Resistance, b: Resistance) -> bool
    ensures { result ≡ less_of a b }
{
    match a {
        Resistance::Infinite => false,
        Resistance::Finite(x) => match b {
            Resistance::Infinite => true,
            Resistance::Finite(y) => x.0 < y.0,
        },
    }
}

fn decided(up: bool, down: bool, present: u32) -> u32
    ensures { result ≡ decidedOf up down present }
{
    if up {
        return 1;
    }
    if down {
        return 0;
    }
    present
}

// Whether neither side of this sum drives.
fn undriven(sum: Sum) -> bool
    ensures { result ≡ undrivenOf (sum_of sum) }
{
    let high = sum.high;
    let low = sum.low;
    if infinite(high) {
        return infinite(low);
    }
    false
}

// The new value of a node with this sum.
pub fn new_value(sum: Sum, present: u32) -> u32
    ensures { result ≡ new_value (sum_of sum) present }
{
    if undriven(sum) {
        let raised = sum.raised;
        let lowered = sum.lowered;
        return decided(lowered.0 < raised.0, raised.0 < lowered.0, present);
    }
    let high = sum.high;
    let low = sum.low;
    decided(less(high, low), less(low, high), present)
}

// The sum of the node that a walk is for.
fn sum_at(net: &[u32], leaf: &[u32], n: u32) -> Result<Sum, AboveCeiling>
    requires ready { Ready net.now leaf.now }
    requires n_bound { n < 2 + get_or net.now nodes_place 0 }
    ensures { Gives result (leaf_sum net.now leaf.now (get_or net.now nodes_place 0) none n) }
{
    let nodes = read(net, NODES);
    node_sum(net, leaf, nodes, NONE, n)
}

// The ohms of a delay walk. An infinite resistance has none; no node that changes has one.
fn in_ohms(r: Resistance) -> Ohms
    ensures { result ≡ in_ohms r }
{
    match r {
        Resistance::Infinite => Ohms(Ohms::CEILING),
        Resistance::Finite(o) => o,
    }
}

// The delay of node n to a new value, where charge is shared or a side drives. It may need more than 32 bits.
fn delay_to(net: &[u32], leaf: &[u32], sharing: bool, new: u32, n: u32) -> Picoseconds
    requires ready { Ready net.now leaf.now }
    requires n_bound { n < 2 + get_or net.now nodes_place 0 }
    ensures { (result.0 ≡ leaf_delay net.now leaf.now sharing new n) × (result.0 < 2 ^ 55) }
{
    let nodes = read(net, NODES);
    let load = node_load(net, leaf, nodes, sharing, new, NONE, n);
    let resistance = load.resistance;
    let charge = load.charge;
    let ohms = in_ohms(resistance);
    delay(ohms, charge)
}

// The earlier of two times where it is not past the horizon, else never.
fn in_horizon(last: Picoseconds, pending: u32, at: Picoseconds) -> u32
    requires { last.0 < 2 ^ 32 }
    ensures { result ≡ cond (leb (min pending at.0) last.0) (min pending at.0) never }
{
    let first = pending as u64;
    let most = last.0;
    let then = at.0;
    if first < then {
        if first <= most {
            return pending;
        }
        return NEVER;
    }
    if then <= most {
        return then as u32;
    }
    NEVER
}

// The next change of node n of this sum, considered at a time, with its pending one.
fn change_to(net: &[u32], leaf: &[u32], sum: Sum, time: u32, pending: u32, n: u32) -> u32
    requires ready { Ready net.now leaf.now }
    requires noded { Noded net.now n × (sum_of sum ≡ leaf_sum net.now leaf.now (get_or net.now nodes_place 0) none n) }
    ensures { result ≡ leaf_move net.now leaf.now time pending n }
{
    let present = read(leaf, n as usize);
    let new = new_value(sum, present);
    if new == present {
        return NEVER;
    }
    let d = delay_to(net, leaf, undriven(sum), new, n);
    let last = horizon(net);
    let at = Picoseconds(time as u64).later(d);
    in_horizon(last, pending, at)
}

// The next change of node n, or that its walk exceeds the ceiling.
pub fn next_change(
    net: &[u32],
    leaf: &[u32],
    time: u32,
    pending: u32,
    n: u32,
) -> Result<u32, AboveCeiling>
    requires ready { Ready net.now leaf.now }
    requires noded { Noded net.now n }
    ensures { result ≡ leaf_next net.now leaf.now time pending n }
{
    let sum = sum_at(net, leaf, n)?;
    Ok(change_to(net, leaf, sum, time, pending, n))
}
