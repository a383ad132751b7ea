// Which nodes a step between two lists of entries can reconsider.
ghost use Rattle.std.specs.Prelude.{◌≡◌, cond, ◌+◌, ◌<◌, length};
ghost use Rattle.format.specs.Circuit.{first_node_number};
ghost use Rattle.net.specs.Net.{nodes_place, at as at_place, net_circuit};
ghost use Rattle.plain.specs.Ready.{Net};
ghost use Rattle.stir.specs.Rest.{stirred_by};
ghost use Rattle.stir.specs.Marks.{GroupMarks, NodeMark, NodeMarks};

use net::inner::is_inner;
use plain::touch::disturbed;
use prepare::group::group_of;

// Some transistor has a gate, or an input at a channel end, whose entries differ.
pub fn stirred(net: &[u32], before: &[u32], after: &[u32]) -> bool
    requires net { Net net.now }
    requires before_len { (length before.now ≡ 26) × (length after.now ≡ 26) }
    ensures { result ≡ stirred_by (net_circuit net.now) before.now after.now }
{
    let count = net[net::TRANSISTORS];
    (0..count).any(|i| disturbed(net, before, after, i))
}

// A mark stays, and what stirs sets one.
pub fn marked(mark: u32, stirs: bool) -> u32
    ensures { result ≡ cond stirs 1 mark }
{
    if stirs {
        return 1;
    }
    mark
}

// Marks by label: the groups of the transistors that have.
fn stirred_groups(net: &[u32], before: &[u32], after: &[u32]) -> [u32; 26]
    requires net { Net net.now }
    requires before_len { (length before.now ≡ 26) × (length after.now ≡ 26) }
    ensures { GroupMarks net.now before.now after.now result }
{
    let count = net[net::TRANSISTORS];
    let mut out = [0u32; 26];
    for i in 0..count {
        let g = group_of(net, i);
        out[g] = marked(out[g], disturbed(net, before, after, i));
    }
    out
}

// The mark of node n by those of the groups: an input has none, and every node has one where `all`.
fn node_mark(net: &[u32], groups: [u32; 26], all: bool, n: usize) -> u32
    requires { Net net.now × (n < first_node_number + at_place net.now nodes_place) }
    ensures { NodeMark net.now groups all n result }
{
    if all {
        return 1;
    }
    if !is_inner(net, n as u32) {
        return 0;
    }
    let g = net[net::GROUP + n] as usize;
    groups[g]
}

// Marks by node number: the nodes to look at again.
pub fn stirred_nodes(net: &[u32], before: &[u32], after: &[u32], all: bool) -> [u32; 26]
    requires net { Net net.now }
    requires before_len { (length before.now ≡ 26) × (length after.now ≡ 26) }
    ensures { NodeMarks net.now before.now after.now all result }
{
    let groups = stirred_groups(net, before, after);
    let count = net[net::NODES] as usize + 2;
    let mut out = [0u32; 26];
    for n in 0..count {
        out[n] = node_mark(net, groups, all, n);
    }
    out
}
