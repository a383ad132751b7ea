// The fields of a column that carry a unit, as what they are: ohms, femtofarads and picoseconds.
ghost use Rattle.std.specs.Prelude.{◌≡◌, ◌+◌, ◌<◌, ◌≤◌};
ghost use Rattle.format.specs.Circuit.{first_node_number, node_record};
ghost use Rattle.format.specs.Legal.{most_horizon};
ghost use Rattle.net.specs.Net.{nodes_place, transistors_place, entries_place, at as at_place, net_transistor, net_entry, net_circuit};
ghost use Rattle.net.specs.Laid.{Laid};

use units::{Femtofarads, Ohms, Picoseconds};

// The resistance of transistor i.
pub fn resistance(net: &[u32], i: u32) -> Ohms
    requires { Laid (net_circuit net.now) net.now × (i < at_place net.now transistors_place) }
    ensures { result ≡ (net_transistor net.now i).resistance }
{
    Ohms(net[crate::RESISTANCE + i as usize])
}

// The capacitance of node n.
pub fn capacitance(net: &[u32], n: u32) -> Femtofarads
    requires { Laid (net_circuit net.now) net.now × (first_node_number ≤ n) × (n < first_node_number + at_place net.now nodes_place) }
    ensures { result ≡ (node_record (net_circuit net.now) n).capacitance }
{
    Femtofarads(net[crate::CAPACITANCE + (n as usize - 2)])
}

// The horizon. It fits 32 bits.
pub fn horizon(net: &[u32]) -> Picoseconds
    requires { Laid (net_circuit net.now) net.now }
    ensures { (result ≡ (net_circuit net.now).horizon) × (result.0 ≤ most_horizon) }
{
    Picoseconds(net[crate::HORIZON] as u64)
}

// The time of schedule entry i. It fits 32 bits.
pub fn entry_time(net: &[u32], i: usize) -> Picoseconds
    requires { Laid (net_circuit net.now) net.now × (i < at_place net.now entries_place) }
    ensures { (result ≡ (net_entry net.now i).time) × (result.0 ≤ most_horizon) }
{
    Picoseconds(net[crate::TIME + i] as u64)
}
