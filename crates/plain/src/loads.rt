// Step rule 6, as document 02's wish 6 amends it: the delay walk, of the same shape as the node sum's but for its ends.
ghost use Rattle.std.specs.Prelude.{◌≡◌, ◌+◌, ◌≤◌, ◌<◌, get_or};
ghost use Rattle.std.proofs.Math.Option.{some};
ghost use Rattle.units.specs.Rules.{ceiling};
ghost use Rattle.units.specs.Range.{AtMost};
ghost use Rattle.format.specs.Circuit.{node_record};
ghost use Rattle.format.specs.Legal.{most_nodes};
ghost use Rattle.rules.specs.Sum.{far_end};
ghost use Rattle.rules.specs.Delay.{driven_load, own_load, load_arm, join_loads, is_end};
ghost use Rattle.net.specs.Net.{nodes_place, transistors_place, net_transistor, net_circuit};
ghost use Rattle.plain.specs.Leaf.{from_of, net_channel, leaf_state, leaf_load, load_of};
ghost use Rattle.plain.specs.Ready.{Net, Noded, Ready, JoinableLoads};

use crate::Load;
use crate::reads::{arm_at, degree_of, far_end, is_arm, is_driven, read};
use net::quantities::{capacitance, resistance};
use units::{Femtofarads, Ohms, Resistance, delay_arm, share};

// A driven end of this value.
fn driven_load(new: u32, value: u32) -> Load
    ensures { load_of result ≡ driven_load new value }
{
    if value == new {
        return Load {
            resistance: Resistance::Finite(Ohms(0)),
            charge: Femtofarads(0),
        };
    }
    Load {
        resistance: Resistance::Infinite,
        charge: Femtofarads(0),
    }
}

// Inner node n by itself.
fn own_load(net: &[u32], leaf: &[u32], new: u32, n: u32) -> Load
    requires ready { Ready net.now leaf.now }
    requires noded { Noded net.now n }
    ensures { load_of result ≡ own_load new (node_record (net_circuit net.now) n).capacitance (get_or leaf.now n 0) }
{
    let charge = capacitance(net, n);
    let value = read(leaf, n as usize);
    if value == new {
        return Load {
            resistance: Resistance::Infinite,
            charge: Femtofarads(0),
        };
    }
    Load {
        resistance: Resistance::Infinite,
        charge,
    }
}

// Transistor i before what the far node has.
fn before_load(net: &[u32], i: u32, far: Load) -> Load
    requires net { Net net.now }
    requires i_bound { i < get_or net.now transistors_place 0 }
    requires at_most { AtMost ceiling far.resistance }
    ensures { load_of result ≡ load_arm (net_transistor net.now i) (load_of far) }
{
    let r = resistance(net, i);
    Load {
        resistance: delay_arm(r, far.resistance),
        charge: share(r, far.resistance, far.charge),
    }
}

fn join_loads(a: Load, b: Load) -> Load
    requires { JoinableLoads (load_of a) (load_of b) }
    ensures { load_of result ≡ join_loads (load_of a) (load_of b) }
{
    Load {
        resistance: a.resistance.parallel(b.resistance),
        charge: a.charge.joined(b.charge),
    }
}

// Whether a delay walk ends at node n: at a driven end, and where charge is shared at a node too that already holds the new value.
fn is_end(net: &[u32], leaf: &[u32], sharing: bool, new: u32, n: u32) -> bool
    requires ready { Ready net.now leaf.now }
    requires n_bound { n < 2 + get_or net.now nodes_place 0 }
    ensures { result ≡ is_end sharing new (net_circuit net.now) (leaf_state (net_circuit net.now) 0 leaf.now) n }
{
    if is_driven(net, n) {
        return true;
    }
    if sharing {
        return read(leaf, n as usize) == new;
    }
    false
}

// The arm of transistor i at node n for the new value: the allowance is that of the far node.
#[cycle(load_arm_node_load)]
pub fn load_arm(
    net: &[u32],
    leaf: &[u32],
    allowance: u32,
    sharing: bool,
    new: u32,
    i: u32,
    n: u32,
) -> Load
    requires ready { Ready net.now leaf.now }
    requires i_bound { i < get_or net.now transistors_place 0 }
    requires allowance_le_most_nodes { allowance ≤ most_nodes }
    ensures { load_of result ≡ load_arm (net_transistor net.now i) (leaf_load net.now leaf.now allowance sharing new (some i) (far_end n (net_channel net.now i))) }
{
    let far = far_end(net, i, n);
    let load = node_load(net, leaf, allowance, sharing, new, i, far);
    before_load(net, i, load)
}

// What node n, reached by transistor `from` (64: by none), has for the new value.
#[cycle(load_arm_node_load)]
pub fn node_load(
    net: &[u32],
    leaf: &[u32],
    allowance: u32,
    sharing: bool,
    new: u32,
    from: u32,
    n: u32,
) -> Load
    requires ready { Ready net.now leaf.now }
    requires n_bound { n < 2 + get_or net.now nodes_place 0 }
    requires allowance_le_most_nodes { allowance ≤ most_nodes }
    ensures { load_of result ≡ leaf_load net.now leaf.now allowance sharing new (from_of from) n }
{
    if is_end(net, leaf, sharing, new, n) {
        return driven_load(new, read(leaf, n as usize));
    }
    let mut load = own_load(net, leaf, new, n);
    if allowance == 0 {
        return load;
    }
    for k in 0..degree_of(net, n) {
        let i = arm_at(net, n, k);
        if is_arm(leaf, from, i) {
            load = join_loads(load, load_arm(net, leaf, allowance - 1, sharing, new, i, n));
        }
    }
    load
}
