// Step rule 1 for one pattern: the sources of a start, and the values once all of T has happened.
ghost use Rattle.std.specs.Prelude.{◌≡◌, cond, ℕ, ◌+◌, ◌-◌, ◌<◌, ◌≤◌, eqb, length, get_or};
ghost use Rattle.format.specs.Circuit.{first_node_number, node_record};
ghost use Rattle.rules.specs.Arrive.{source_at, scheduled};
ghost use Rattle.net.specs.Net.{nodes_place, at as at_place, net_circuit};
ghost use Rattle.net.specs.Laid.{Laid};
ghost use Rattle.plain.specs.Pattern.{Bits, Filled, arrived_at};

use net::inner::is_input;
use net::schedule::{NONE, source_at};
use net::{NODES, START};

// The value of a source byte at pattern p.
fn source_value(byte: u32, p: u32) -> u32
    requires { byte < 26 }
    ensures { result ≡ source_at byte p }
{
    if byte < 2 {
        return byte;
    }
    let bit = (p >> ((byte - 2) / 2)) % 2;
    if byte % 2 == 0 {
        return bit;
    }
    1 - bit
}

// The value of input n after T: its source where one is scheduled, else the present value.
fn input_value(net: &[u32], time: u32, p: u32, n: u32, present: u32) -> u32
    requires { Laid (net_circuit net.now) net.now }
    ensures { result ≡ scheduled (net_circuit net.now).schedule time n p present }
{
    let byte = source_at(net, time, n);
    if byte == NONE {
        return present;
    }
    source_value(byte, p)
}

// The value of an inner node after T: it flips where its next change is T.
fn flipped(time: u32, present: u32, change: u32) -> u32
    requires { present ≤ 1 }
    ensures { result ≡ cond (eqb change time) (1 - present) present }
{
    if change == time {
        return 1 - present;
    }
    present
}

// The value of node n after T.
fn value_after(net: &[u32], time: u32, p: u32, n: u32, present: u32, change: u32) -> u32
    requires { Laid (net_circuit net.now) net.now × (n < first_node_number + at_place net.now nodes_place) × (present ≤ 1) }
    ensures { result ≡ arrived_at (net_circuit net.now) time p n present change }
{
    if is_input(net, n) {
        return input_value(net, time, p, n, present);
    }
    flipped(time, present, change)
}

// The values of a start.
pub fn sources(net: &[u32], p: u32) -> [u32; 26]
    requires { Laid (net_circuit net.now) net.now }
    ensures { Filled 0 1 (λ (n : ℕ). source_at (node_record (net_circuit net.now) n).start p) (first_node_number + at_place net.now nodes_place) result }
{
    let mut values = [0u32; 26];
    values[1] = 1;
    for n in 2..2 + net[NODES] as usize {
        values[n] = source_value(net[START + (n - 2)], p);
    }
    values
}

// The values once all of T has happened.
pub fn values_after(net: &[u32], before: &[u32], pending: &[u32], time: u32, p: u32) -> [u32; 26]
    requires { Laid (net_circuit net.now) net.now × Bits (net_circuit net.now) before.now × (length pending.now ≡ 26) }
    ensures { Filled 0 1 (λ (n : ℕ). arrived_at (net_circuit net.now) time p n (get_or before.now n 0) (get_or pending.now n 0)) (first_node_number + at_place net.now nodes_place) result }
{
    let mut values = [0u32; 26];
    values[1] = 1;
    for n in 2..2 + net[NODES] as usize {
        values[n] = value_after(net, time, p, n as u32, before[n], pending[n]);
    }
    values
}
