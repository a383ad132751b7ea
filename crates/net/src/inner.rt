// Which nodes of a column are inner nodes.
ghost use Rattle.std.specs.Prelude.{◌≡◌, ◌+◌, ◌<◌, length};
ghost use Rattle.format.specs.Circuit.{first_node_number};
ghost use Rattle.format.specs.Legal.{is_input};
ghost use Rattle.rules.specs.State.{is_inner};
ghost use Rattle.rules.specs.Label.{between_inner};
ghost use Rattle.net.specs.Net.{nodes_place, transistors_place, net_length, at as at_place, net_transistor, net_circuit};
ghost use Rattle.net.specs.Laid.{Within};

// A node record with the role of an input.
pub fn is_input(net: &[u32], n: u32) -> bool
    requires { (length net.now ≡ net_length) × Within net.now × (n < first_node_number + at_place net.now nodes_place) }
    ensures { result ≡ is_input (net_circuit net.now) n }
{
    n >= 2 && net[crate::ROLE + (n as usize - 2)] == 1
}

// Neither a rail nor an input.
pub fn is_inner(net: &[u32], n: u32) -> bool
    requires { (length net.now ≡ net_length) × Within net.now × (n < first_node_number + at_place net.now nodes_place) }
    ensures { result ≡ is_inner (net_circuit net.now) n }
{
    n >= 2 && !is_input(net, n)
}

// Transistor i lies between two inner nodes.
pub fn between_inner(net: &[u32], i: u32) -> bool
    requires { (length net.now ≡ net_length) × Within net.now × (i < at_place net.now transistors_place) }
    ensures { result ≡ between_inner (net_circuit net.now) (net_transistor net.now i) }
{
    let first = net[crate::FIRST + i as usize];
    let second = net[crate::SECOND + i as usize];
    is_inner(net, first) && is_inner(net, second)
}
