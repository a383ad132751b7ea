// The group of a transistor.
ghost use Rattle.std.specs.Prelude.{◌≡◌, ◌<◌};
ghost use Rattle.net.specs.Net.{transistors_place, at as at_place, net_transistor, net_circuit};
ghost use Rattle.net.specs.Laid.{Laid};
ghost use Rattle.prepare.specs.Steps.{group_of};

use net::inner::is_inner;

// The label of transistor i's group; 0 where no end is an inner node.
pub fn group_of(net: &[u32], i: u32) -> usize
    requires { Laid (net_circuit net.now) net.now × (i < at_place net.now transistors_place) }
    ensures { (result ≡ group_of (net_circuit net.now) (net_transistor net.now i)) × (result < 26) }
{
    let at = i as usize;
    let first = net[net::FIRST + at];
    if is_inner(net, first) {
        return net[net::GROUP + first as usize] as usize;
    }
    let second = net[net::SECOND + at];
    if is_inner(net, second) {
        return net[net::GROUP + second as usize] as usize;
    }
    0
}
