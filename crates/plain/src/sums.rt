// Step rule 4: node sum and arm, which call each other along the kept transistors, and pass up that an arm exceeds the ceiling.
ghost use Rattle.std.specs.Prelude.{◌≡◌, ◌+◌, ◌<◌, get_or};
ghost use Rattle.std.proofs.Math.Option.{some};
ghost use Rattle.format.specs.Circuit.{node_record};
ghost use Rattle.rules.specs.Sum.{far_end, driven_sum, own_sum, arm_of, join_sums};
ghost use Rattle.net.specs.Net.{nodes_place, transistors_place, net_transistor, net_circuit};
ghost use Rattle.plain.specs.Leaf.{from_of, net_channel, leaf_sum, sum_of, Gives};
ghost use Rattle.plain.specs.Ready.{Net, Noded, Ready, Divided, Joinable};

use crate::Sum;
use crate::reads::{arm_at, degree_of, far_end, is_arm, is_driven, read};
use net::quantities::{capacitance, resistance};
use units::{AboveCeiling, Femtofarads, Ohms, Resistance, arm_side};

// A driven end of this value.
fn driven_sum(value: u32) -> Sum
    ensures { sum_of result ≡ driven_sum value }
{
    if value == 1 {
        return Sum {
            high: Resistance::Finite(Ohms(0)),
            low: Resistance::Infinite,
            raised: Femtofarads(0),
            lowered: Femtofarads(0),
        };
    }
    Sum {
        high: Resistance::Infinite,
        low: Resistance::Finite(Ohms(0)),
        raised: Femtofarads(0),
        lowered: Femtofarads(0),
    }
}

// Inner node n by itself.
fn own_sum(net: &[u32], leaf: &[u32], n: u32) -> Sum
    requires ready { Ready net.now leaf.now }
    requires noded { Noded net.now n }
    ensures { sum_of result ≡ own_sum (node_record (net_circuit net.now) n).capacitance (get_or leaf.now n 0) }
{
    let charge = capacitance(net, n);
    let value = read(leaf, n as usize);
    if value == 1 {
        return Sum {
            high: Resistance::Infinite,
            low: Resistance::Infinite,
            raised: charge,
            lowered: Femtofarads(0),
        };
    }
    Sum {
        high: Resistance::Infinite,
        low: Resistance::Infinite,
        raised: Femtofarads(0),
        lowered: charge,
    }
}

// Transistor i before the far node's sum.
fn before_sum(net: &[u32], i: u32, far: Sum) -> Result<Sum, AboveCeiling>
    requires net { Net net.now }
    requires i_bound { i < get_or net.now transistors_place 0 }
    requires divided { Divided (sum_of far) }
    ensures { Gives result (arm_of (net_transistor net.now i) (sum_of far)) }
{
    let r = resistance(net, i);
    Ok(Sum {
        high: arm_side(r, far.high, far.low)?,
        low: arm_side(r, far.low, far.high)?,
        raised: far.raised,
        lowered: far.lowered,
    })
}

fn join_sums(a: Sum, b: Sum) -> Sum
    requires { Joinable (sum_of a) (sum_of b) }
    ensures { sum_of result ≡ join_sums (sum_of a) (sum_of b) }
{
    Sum {
        high: a.high.parallel(b.high),
        low: a.low.parallel(b.low),
        raised: a.raised.joined(b.raised),
        lowered: a.lowered.joined(b.lowered),
    }
}

// The arm of transistor i at node n: the allowance is that of the far node.
#[cycle(arm_node_sum)]
pub fn arm(net: &[u32], leaf: &[u32], allowance: u32, i: u32, n: u32) -> Result<Sum, AboveCeiling>
    requires ready { Ready net.now leaf.now }
    requires i_bound { i < get_or net.now transistors_place 0 }
    ensures { Gives result (arm_of (net_transistor net.now i) (leaf_sum net.now leaf.now allowance (some i) (far_end n (net_channel net.now i)))) }
{
    let far = far_end(net, i, n);
    let sum = node_sum(net, leaf, allowance, i, far)?;
    before_sum(net, i, sum)
}

// The sum of node n, reached by transistor `from` (64: by none), with an allowance of nodes that are not yet passed.
#[cycle(arm_node_sum)]
pub fn node_sum(
    net: &[u32],
    leaf: &[u32],
    allowance: u32,
    from: u32,
    n: u32,
) -> Result<Sum, AboveCeiling>
    requires ready { Ready net.now leaf.now }
    requires n_bound { n < 2 + get_or net.now nodes_place 0 }
    ensures { Gives result (leaf_sum net.now leaf.now allowance (from_of from) n) }
{
    if is_driven(net, n) {
        return Ok(driven_sum(read(leaf, n as usize)));
    }
    let mut sum = own_sum(net, leaf, n);
    if allowance == 0 {
        return Ok(sum);
    }
    for k in 0..degree_of(net, n) {
        let i = arm_at(net, n, k);
        if is_arm(leaf, from, i) {
            sum = join_sums(sum, arm(net, leaf, allowance - 1, i, n)?);
        }
    }
    Ok(sum)
}
