// Step rule 2: whether a node's piece holds an end of a disturbed transistor.
ghost use Rattle.std.specs.Prelude.{◌≡◌, ◌+◌, ◌<◌, length, get_or};
ghost use Rattle.format.specs.Circuit.{first_node_number};
ghost use Rattle.rules.specs.State.{State};
ghost use Rattle.rules.specs.Reach.{reconsidered};
ghost use Rattle.net.specs.Net.{nodes_place, transistors_place, net_transistor, net_circuit};
ghost use Rattle.net.specs.Laid.{Laid};
ghost use Rattle.plain.specs.Shown.{Column, Shows, changed_at, input_changed_at, disturbed_at, in_piece_at, of_piece_at};
ghost use Rattle.plain.specs.Leaves.{Parted};

use net::inner::{is_inner, is_input};

fn changed(before: &[u32], after: &[u32], n: u32) -> bool
    requires { (length before.now ≡ 26) × (length after.now ≡ 26) × (n < 26) }
    ensures { result ≡ changed_at before.now after.now n }
{
    before[n as usize] != after[n as usize]
}

fn input_changed(net: &[u32], before: &[u32], after: &[u32], n: u32) -> bool
    requires laid { Laid (net_circuit net.now) net.now }
    requires before_len { (length before.now ≡ 26) × (length after.now ≡ 26) × (n < first_node_number + get_or net.now nodes_place 0) }
    ensures { result ≡ input_changed_at (net_circuit net.now) before.now after.now n }
{
    is_input(net, n) & changed(before, after, n)
}

// Transistor i has a gate that changed, or an input that changed at a channel end.
pub fn disturbed(net: &[u32], before: &[u32], after: &[u32], i: u32) -> bool
    requires laid { Laid (net_circuit net.now) net.now }
    requires before_len { (length before.now ≡ 26) × (length after.now ≡ 26) × (i < get_or net.now transistors_place 0) }
    ensures { result ≡ disturbed_at (net_circuit net.now) before.now after.now (net_transistor net.now i) }
{
    let gate = net[net::GATE + i as usize];
    let first = net[net::FIRST + i as usize];
    let second = net[net::SECOND + i as usize];
    changed(before, after, gate)
        | input_changed(net, before, after, first)
        | input_changed(net, before, after, second)
}

// Node m is an inner node of node n's piece, by labels.
fn in_piece(net: &[u32], labels: &[u32], n: u32, m: u32) -> bool
    requires laid { Laid (net_circuit net.now) net.now × (length labels.now ≡ 26) }
    requires n_bound { (n < first_node_number + get_or net.now nodes_place 0) × (m < first_node_number + get_or net.now nodes_place 0) }
    ensures { result ≡ in_piece_at (net_circuit net.now) labels.now n m }
{
    let one = labels[n as usize];
    let other = labels[m as usize];
    is_inner(net, m) & (one == other)
}

// Transistor i has a channel end in node n's piece.
fn of_piece(net: &[u32], labels: &[u32], n: u32, i: u32) -> bool
    requires laid { Laid (net_circuit net.now) net.now × (length labels.now ≡ 26) }
    requires n_bound { (n < first_node_number + get_or net.now nodes_place 0) × (i < get_or net.now transistors_place 0) }
    ensures { result ≡ of_piece_at (net_circuit net.now) labels.now n (net_transistor net.now i) }
{
    let first = net[net::FIRST + i as usize];
    let second = net[net::SECOND + i as usize];
    in_piece(net, labels, n, first) | in_piece(net, labels, n, second)
}

// Whether a step between these values reconsiders node n, by the pieces that the channels conducting after T make.
pub fn touched(net: &[u32], labels: &[u32], before: &[u32], after: &[u32], n: u32) -> bool
    requires laid { Laid (net_circuit net.now) net.now × Parted net.now after.now labels.now }
    requires column { Column before.now × Column after.now × (n < first_node_number + get_or net.now nodes_place 0) }
    ensures { (s t : State) → Shows (net_circuit net.now) before.now s → Shows (net_circuit net.now) after.now t → result ≡ reconsidered (net_circuit net.now) s t n }
{
    if !is_inner(net, n) {
        return false;
    }
    for i in 0..net[net::TRANSISTORS] {
        if of_piece(net, labels, n, i) & disturbed(net, before, after, i) {
            return true;
        }
    }
    false
}
