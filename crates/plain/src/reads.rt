// Reads of the cell and of a leaf, each at its place.
ghost use Rattle.std.specs.Prelude.{◌≡◌, ◌&&◌, not, ◌+◌, ◌<◌, length, get_or};
ghost use Rattle.rules.specs.State.{is_driven};
ghost use Rattle.rules.specs.Sum.{is_the, far_end};
ghost use Rattle.net.specs.Net.{nodes_place, transistors_place, net_circuit, net_arms};
ghost use Rattle.net.specs.Roots.{leaf_length};
ghost use Rattle.plain.specs.Leaf.{is_kept, from_of, net_channel};
ghost use Rattle.plain.specs.Ready.{Net};

use net::roots::KEPT;
use net::{ARMS, DEGREE, FIRST, ROLE, SECOND};

// Stands for no transistor.
pub const NONE: u32 = 64;

pub fn read(column: &[u32], i: usize) -> u32
    requires { i < length column.now }
    ensures { result ≡ get_or column.now i 0 }
{
    column[i]
}

// Whether node n is a rail or an input.
pub fn is_driven(net: &[u32], n: u32) -> bool
    requires net { Net net.now }
    requires n_bound { n < 2 + get_or net.now nodes_place 0 }
    ensures { result ≡ is_driven (net_circuit net.now) n }
{
    if n < 2 {
        return true;
    }
    read(net, ROLE + (n as usize - 2)) == 1
}

// Whether transistor i is kept and is not the one by which the node was reached.
pub fn is_arm(leaf: &[u32], from: u32, i: u32) -> bool
    requires leaf_len { length leaf.now ≡ leaf_length }
    requires i_bound { i < 64 }
    ensures { result ≡ (is_kept leaf.now i && not (is_the (from_of from) i)) }
{
    if i == from {
        return false;
    }
    read(leaf, KEPT + i as usize) == 1
}

// The end of transistor i that is not node n.
pub fn far_end(net: &[u32], i: u32, n: u32) -> u32
    requires net { Net net.now }
    requires i_bound { i < get_or net.now transistors_place 0 }
    ensures { result ≡ far_end n (net_channel net.now i) }
{
    let first = read(net, FIRST + i as usize);
    if first == n {
        return read(net, SECOND + i as usize);
    }
    first
}

// How many arms the cell lists for node n.
pub fn degree_of(net: &[u32], n: u32) -> u32
    requires net { Net net.now }
    requires n_bound { n < 2 + get_or net.now nodes_place 0 }
    ensures { result ≡ length (net_arms net.now n) }
{
    read(net, DEGREE + n as usize)
}

// The transistor of arm k of node n.
pub fn arm_at(net: &[u32], n: u32, k: u32) -> u32
    requires net { Net net.now }
    requires n_bound { n < 2 + get_or net.now nodes_place 0 }
    requires k_in_bounds { k < length (net_arms net.now n) }
    ensures { (result ≡ get_or (net_arms net.now n) k 0) × (result < get_or net.now transistors_place 0) }
{
    read(net, ARMS + 64 * n as usize + k as usize)
}
