// What the marked nodes are worked out from, and the entries that marks leave.
ghost use Rattle.std.specs.Prelude.{◌≡◌, cond, ◌<◌, eqb};
ghost use Rattle.net.specs.Net.{transistors_place, at as at_place, net_transistor};
ghost use Rattle.plain.specs.Ready.{Net};
ghost use Rattle.stir.specs.Marks.{end_marked, Needed, Masked};

use crate::marks::marked;

// Some end of transistor i has a mark.
fn at_marked(net: &[u32], marks: [u32; 26], i: u32) -> bool
    requires { Net net.now × (i < at_place net.now transistors_place) }
    ensures { result ≡ end_marked marks (net_transistor net.now i) }
{
    let at = i as usize;
    let first = net[net::FIRST + at] as usize;
    let second = net[net::SECOND + at] as usize;
    (marks[first] != 0) | (marks[second] != 0)
}

// Marks by node number: what the marked nodes are worked out from. These, the supply, and gate and ends of each transistor at one of them.
pub fn needed(net: &[u32], marks: [u32; 26]) -> [u32; 26]
    requires { Net net.now }
    ensures { Needed net.now marks result }
{
    let count = net[net::TRANSISTORS];
    let mut out = marks;
    out[1] = 1;
    for i in 0..count {
        let at = i as usize;
        let reads = at_marked(net, marks, i);
        let gate = net[net::GATE + at] as usize;
        out[gate] = marked(out[gate], reads);
        let first = net[net::FIRST + at] as usize;
        out[first] = marked(out[first], reads);
        let second = net[net::SECOND + at] as usize;
        out[second] = marked(out[second], reads);
    }
    out
}

// The entry of a node with this mark.
fn kept_entry(mark: u32, entry: u32) -> u32
    ensures { result ≡ cond (eqb mark 0) 0 entry }
{
    if mark == 0 {
        return 0;
    }
    entry
}

// The entries of the marked nodes, 0 for the others.
pub fn masked(marks: [u32; 26], entries: [u32; 26]) -> [u32; 26]
    ensures { Masked marks entries result }
{
    let mut out = [0u32; 26];
    for n in 0..26 {
        out[n] = kept_entry(marks[n], entries[n]);
    }
    out
}
