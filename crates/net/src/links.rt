// The groups: inner nodes linked by channels, conducting or not, have one label. The last transistor that closes a loop of them is noted.
ghost use Rattle.std.specs.Prelude.{◌≡◌, ◌<◌, length};
ghost use Rattle.net.specs.Net.{transistors_place, net_length, at as at_place, net_transistor, net_circuit};
ghost use Rattle.net.specs.Laid.{Within};
ghost use Rattle.net.specs.Written.{noted, Linked, Grouped};

use crate::inner::between_inner;
use crate::labels;

fn link(net: &mut [u32], i: u32)
    requires { (length net.old ≡ net_length) × Within net.old × (i < at_place net.old transistors_place) }
    ensures { Linked (net_circuit net.old) (net_transistor net.old i) net.old net.new }
{
    let first = net[crate::FIRST + i as usize];
    let second = net[crate::SECOND + i as usize];
    if between_inner(net, i) {
        labels::join(net, crate::GROUP, first, second);
    }
}

// Notes transistor i if its ends are inner nodes that those before it have linked already.
fn note_loop(net: &mut [u32], i: u32)
    requires { (length net.old ≡ net_length) × Within net.old × (i < at_place net.old transistors_place) }
    ensures { net.new ≡ noted (net_circuit net.old) (net_transistor net.old i) i net.old }
{
    let first = net[crate::FIRST + i as usize] as usize;
    let second = net[crate::SECOND + i as usize] as usize;
    if !between_inner(net, i) {
        return;
    }
    if net[crate::GROUP + first] == net[crate::GROUP + second] {
        net[crate::LOOPS] = i + 1;
    }
}

pub fn put_groups(net: &mut [u32])
    requires { (length net.old ≡ net_length) × Within net.old }
    ensures { Grouped (net_circuit net.old) net.old net.new }
{
    labels::start(net, crate::GROUP);
    let count = net[crate::TRANSISTORS];
    for i in 0..count {
        note_loop(net, i);
        link(net, i);
    }
}
