// The fields of the records, each in its own row of places.
ghost use Rattle.std.specs.Prelude.{◌≡◌, ℕ, ◌<◌, ◌≤◌, length, get_or};
ghost use Rattle.format.specs.Circuit.{no_node, no_transistor, no_entry};
ghost use Rattle.format.specs.Legal.{most_nodes, most_transistors, most_entries, most_horizon, check_circuit};
ghost use Rattle.refusal.specs.Answer.{answered};
ghost use Rattle.cell.specs.Value.{circuit_of};
ghost use Rattle.net.specs.Net.{net_length, net_node, net_transistor, net_entry};
ghost use Rattle.net.specs.Written.{puts, header_writes, node_writes, transistor_writes, entry_writes, Put, Fielded};

use cell::Cell;
use format::{Entry, Header, Node, Transistor};

fn put_header(net: &mut [u32], h: Header)
    requires { (length net.old ≡ net_length) × (h.horizon.0 ≤ most_horizon) }
    ensures { net.new ≡ puts net.old (header_writes h) }
{
    let horizon = h.horizon;
    net[crate::NODES] = h.nodes;
    net[crate::TRANSISTORS] = h.transistors;
    net[crate::ENTRIES] = h.entries;
    net[crate::LETTERS] = h.letters;
    net[crate::HORIZON] = horizon.0 as u32;
}

fn put_node(net: &mut [u32], i: usize, n: Node)
    requires { (length net.old ≡ net_length) × (i < most_nodes) }
    ensures { net.new ≡ puts net.old (node_writes i n) }
{
    let capacitance = n.capacitance;
    net[crate::ROLE + i] = n.role as u32;
    net[crate::START + i] = n.start as u32;
    net[crate::CAPACITANCE + i] = capacitance.0;
}

fn put_transistor(net: &mut [u32], i: usize, t: Transistor)
    requires { (length net.old ≡ net_length) × (i < most_transistors) }
    ensures { net.new ≡ puts net.old (transistor_writes i t) }
{
    let resistance = t.resistance;
    net[crate::POLARITY + i] = t.polarity as u32;
    net[crate::GATE + i] = t.gate as u32;
    net[crate::FIRST + i] = t.first as u32;
    net[crate::SECOND + i] = t.second as u32;
    net[crate::RESISTANCE + i] = resistance.0;
}

fn put_entry(net: &mut [u32], i: usize, e: Entry)
    requires { (length net.old ≡ net_length) × (i < most_entries) × (e.time.0 ≤ most_horizon) }
    ensures { net.new ≡ puts net.old (entry_writes i e) }
{
    let time = e.time;
    net[crate::INPUT + i] = e.input as u32;
    net[crate::SOURCE + i] = e.source as u32;
    net[crate::TIME + i] = time.0 as u32;
}

// This and the next two stay three functions: a trait over the records would take more lines than the three loops.
fn put_nodes(net: &mut [u32], nodes: [Node; 24], count: u32)
    requires { (length net.old ≡ net_length) × (count ≤ most_nodes) }
    ensures { Put 8 80 net_node no_node nodes count net.old net.new }
{
    for i in 0..count as usize {
        put_node(net, i, nodes[i]);
    }
}

fn put_transistors(net: &mut [u32], transistors: [Transistor; 64], count: u32)
    requires { (length net.old ≡ net_length) × (count ≤ most_transistors) }
    ensures { Put 80 400 net_transistor no_transistor transistors count net.old net.new }
{
    for i in 0..count as usize {
        put_transistor(net, i, transistors[i]);
    }
}

fn put_entries(net: &mut [u32], schedule: [Entry; 64], count: u32)
    requires { (length net.old ≡ net_length) × (count ≤ most_entries) × ((i : ℕ) → i < count → (get_or schedule i no_entry).time.0 ≤ most_horizon) }
    ensures { Put 400 592 net_entry no_entry schedule count net.old net.new }
{
    for i in 0..count as usize {
        put_entry(net, i, schedule[i]);
    }
}

// The fields of a legal cell.
pub fn put_fields(net: &mut [u32], cell: Cell)
    requires { (length net.old ≡ net_length) × (check_circuit (circuit_of cell) ≡ answered (circuit_of cell)) }
    ensures { Fielded (circuit_of cell) net.old net.new }
{
    let header = cell.header;
    let nodes = cell.nodes;
    let transistors = cell.transistors;
    let schedule = cell.schedule;
    put_header(net, header);
    put_nodes(net, nodes, header.nodes);
    put_transistors(net, transistors, header.transistors);
    put_entries(net, schedule, header.entries);
}
