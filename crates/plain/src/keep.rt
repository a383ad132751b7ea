// Step rule 3: which transistors are kept, by rising number.
ghost use Rattle.std.specs.Prelude.{◌≡◌, cond, ℕ, ◌+◌, ◌-◌, ◌<◌, length, get_or};
ghost use Rattle.net.specs.Net.{transistors_place, net_transistor, net_circuit};
ghost use Rattle.net.specs.Laid.{Laid};
ghost use Rattle.net.specs.Written.{Row};
ghost use Rattle.net.specs.Roots.{leaf_length};
ghost use Rattle.plain.specs.Shown.{Column};
ghost use Rattle.plain.specs.Leaves.{conducts_at, keeps_at, EndsJoined, OneKept, KeptTo, KeptLeaf, Parted};

use crate::Kept;
use net::inner::between_inner;
use net::labels;
use net::roots::{KEPT, LEAF, VALUES};

fn conducts(net: &[u32], values: &[u32], i: u32) -> bool
    requires laid { Laid (net_circuit net.now) net.now }
    requires values_len { (length values.now ≡ 26) × (i < get_or net.now transistors_place 0) }
    ensures { result ≡ conducts_at values.now (net_transistor net.now i) }
{
    let polarity = net[net::POLARITY + i as usize];
    let gate = net[net::GATE + i as usize];
    values[gate as usize] == 1 - polarity
}

// Transistor i conducts, and is none between inner nodes that are joined already.
fn keeps(net: &[u32], values: &[u32], labels: &[u32], i: u32) -> bool
    requires laid { Laid (net_circuit net.now) net.now }
    requires values_len { (length values.now ≡ 26) × (length labels.now ≡ 26) × (i < get_or net.now transistors_place 0) }
    ensures { result ≡ keeps_at (net_circuit net.now) values.now labels.now (net_transistor net.now i) }
{
    let first = net[net::FIRST + i as usize];
    let second = net[net::SECOND + i as usize];
    let one = labels[first as usize];
    let other = labels[second as usize];
    conducts(net, values, i) & !(between_inner(net, i) & (one == other))
}

// The ends of a kept transistor i, if both are inner nodes.
fn join_ends(net: &[u32], labels: &mut [u32], i: u32)
    requires laid { Laid (net_circuit net.now) net.now }
    requires labels_len { (length labels.old ≡ 26) × (i < get_or net.now transistors_place 0) }
    ensures { EndsJoined (net_circuit net.now) (net_transistor net.now i) labels.old labels.new }
{
    let first = net[net::FIRST + i as usize];
    let second = net[net::SECOND + i as usize];
    if between_inner(net, i) {
        labels::join(labels, 0, first, second);
    }
}

fn keep_one(net: &[u32], values: &[u32], leaf: &mut [u32], labels: &mut [u32], i: u32)
    requires laid { Laid (net_circuit net.now) net.now }
    requires values_len { (length values.now ≡ 26) × (length leaf.old ≡ leaf_length) × (length labels.old ≡ 26) × (i < get_or net.now transistors_place 0) }
    ensures { OneKept (net_circuit net.now) values.now i (net_transistor net.now i) leaf.old leaf.new labels.old labels.new }
{
    let keep = keeps(net, values, labels, i);
    leaf[KEPT + i as usize] = u32::from(keep);
    if keep {
        join_ends(net, labels, i);
    }
}

fn copy(leaf: &mut [u32], values: &[u32])
    requires { (length leaf.old ≡ leaf_length) × (length values.now ≡ 26) }
    ensures { Row 0 26 (λ (n : ℕ). get_or values.now n 0) leaf.old leaf.new }
{
    leaf[..VALUES].copy_from_slice(values);
}

fn keep_all(net: &[u32], values: &[u32], leaf: &mut [u32], labels: &mut [u32])
    requires laid { Laid (net_circuit net.now) net.now }
    requires column { Column values.now × (length leaf.old ≡ leaf_length) × (length labels.old ≡ 26) × ((n : ℕ) → n < 26 → get_or labels.old n 0 ≡ n) }
    ensures { KeptTo (net_circuit net.now) values.now (get_or net.now transistors_place 0) leaf.old leaf.new labels.new }
{
    for i in 0..net[net::TRANSISTORS] {
        keep_one(net, values, leaf, labels, i);
    }
}

// The leaf of a pattern's values, and the pieces of its nodes.
pub fn kept(net: &[u32], values: &[u32]) -> Kept
    requires laid { Laid (net_circuit net.now) net.now }
    requires column { Column values.now }
    ensures { KeptLeaf net.now values.now result.leaf × Parted net.now values.now result.labels }
{
    let mut leaf = [0u32; LEAF];
    let mut labels = [0u32; 26];
    copy(&mut leaf, values);
    labels::start(&mut labels, 0);
    keep_all(net, values, &mut leaf, &mut labels);
    Kept { leaf, labels }
}
