// Step rules 2 to 7 for one node: whether it is reconsidered, and its next change.
ghost use Rattle.std.specs.Prelude.{◌≡◌, true, cond, ◌+◌, ◌<◌, get_or};
ghost use Rattle.format.specs.Circuit.{first_node_number};
ghost use Rattle.rules.specs.State.{State, change_at};
ghost use Rattle.net.specs.Net.{nodes_place, net_circuit};
ghost use Rattle.plain.specs.Exceeded.{number_of};
ghost use Rattle.plain.specs.Leaf.{leaf_change};
ghost use Rattle.plain.specs.Ready.{Noded, Ready};
ghost use Rattle.plain.specs.Shown.{Shows};
ghost use Rattle.plain.specs.Leaves.{KeptLeaf, Parted};
ghost use Rattle.plain.specs.Settle.{pending_after, considers, change_between, Between};

use crate::change::{NEVER, next_change};
use crate::keep::kept;
use crate::touch::touched;
use net::inner::is_inner;
use units::AboveCeiling;

// The number that stands for a walk that exceeds the ceiling: no next change is 0.
pub const EXCEEDED: u32 = 0;

// A next change, or that number.
fn as_number(next: Result<u32, AboveCeiling>) -> u32
    ensures { result ≡ number_of next }
{
    next.unwrap_or(EXCEEDED)
}

// The pending change once T has happened.
pub fn pending_after(time: u32, pending: u32) -> u32
    ensures { result ≡ pending_after time pending }
{
    if pending == time {
        return NEVER;
    }
    pending
}

// Whether node n is reconsidered between these values; where `all`, every inner node is.
pub fn considered(
    net: &[u32],
    labels: &[u32],
    before: &[u32],
    after: &[u32],
    all: bool,
    n: u32,
) -> bool
    requires { Between net.now before.now after.now × Parted net.now after.now labels.now × (n < first_node_number + get_or net.now nodes_place 0) }
    ensures { (s t : State) → Shows (net_circuit net.now) before.now s → Shows (net_circuit net.now) after.now t → result ≡ considers (net_circuit net.now) all s t n }
{
    if all {
        return is_inner(net, n);
    }
    touched(net, labels, before, after, n)
}

// The next change of node n, which is reconsidered, by its leaf, or that its walk exceeds.
pub fn moved(net: &[u32], leaf: &[u32], time: u32, pending: u32, n: u32) -> u32
    requires { Ready net.now leaf.now × Noded net.now n }
    ensures { result ≡ leaf_change net.now leaf.now time (pending_after time pending) n }
{
    let rest = pending_after(time, pending);
    as_number(next_change(net, leaf, time, rest, n))
}

// The next change of node n by its leaf where it is reconsidered, else its pending one.
pub fn settled(net: &[u32], leaf: &[u32], moves: bool, time: u32, pending: u32, n: u32) -> u32
    requires { Noded net.now n × (moves ≡ true → Ready net.now leaf.now) }
    ensures { result ≡ cond moves (leaf_change net.now leaf.now time (pending_after time pending) n) (pending_after time pending) }
{
    if !moves {
        return pending_after(time, pending);
    }
    moved(net, leaf, time, pending, n)
}

// The next change of node n between these values, by the leaf and the pieces of those after T.
pub fn change_by(
    net: &[u32],
    leaf: &[u32],
    labels: &[u32],
    before: &[u32],
    after: &[u32],
    pending: u32,
    time: u32,
    all: bool,
    n: u32,
) -> u32
    requires { Between net.now before.now after.now × KeptLeaf net.now after.now leaf.now × Parted net.now after.now labels.now × Noded net.now n }
    ensures { (s t : State) → Shows (net_circuit net.now) before.now s → Shows (net_circuit net.now) after.now t → change_at t n ≡ pending_after time pending → result ≡ change_between (net_circuit net.now) time all s t n }
{
    let moves = considered(net, labels, before, after, all, n);
    settled(net, leaf, moves, time, pending, n)
}

// The same for one node alone.
pub fn change(
    net: &[u32],
    before: &[u32],
    after: &[u32],
    pending: u32,
    time: u32,
    all: bool,
    n: u32,
) -> u32
    requires { Between net.now before.now after.now × Noded net.now n }
    ensures { (s t : State) → Shows (net_circuit net.now) before.now s → Shows (net_circuit net.now) after.now t → change_at t n ≡ pending_after time pending → result ≡ change_between (net_circuit net.now) time all s t n }
{
    let parts = kept(net, after);
    let leaf = parts.leaf;
    let labels = parts.labels;
    change_by(net, &leaf, &labels, before, after, pending, time, all, n)
}
