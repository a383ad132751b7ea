// The fields of a cell: each check is the definition of its name.
ghost use Rattle.std.specs.Prelude.{◌≡◌, ◌≤◌};
ghost use Rattle.format.specs.Circuit.{every, no_node, no_transistor, no_entry};
ghost use Rattle.format.specs.Source.{source_legal};
ghost use Rattle.format.specs.Legal.{most_nodes, most_transistors, most_entries, most_letters, limits_kept, node_legal, node_number, transistor_legal, is_input, entry_legal, fields_legal};
ghost use Rattle.format.specs.Legal as defined;
ghost use Rattle.cell.specs.Value.{firsts, circuit_of};
ghost use Rattle.cell.specs.Counted.{Counted};

use crate::Cell;
use format::{Entry, Header, Node, Transistor};

const INNER: u8 = 0;

const INPUT: u8 = 1;

const FIRST_NODE_NUMBER: u8 = 2;

const MOST_CAPACITANCE: u64 = 65535;

fn within(least: u64, most: u64, x: u64) -> bool
    ensures { result ≡ defined.within least most x }
{
    least <= x && x <= most
}

// Refusal 2.
pub fn limits_kept(h: Header) -> bool
    ensures { result ≡ limits_kept h }
{
    within(1, u64::from(Cell::MOST_NODES), u64::from(h.nodes))
        && within(
            1,
            u64::from(Cell::MOST_TRANSISTORS),
            u64::from(h.transistors),
        )
        && h.entries <= Cell::MOST_ENTRIES
        && h.letters <= Cell::MOST_LETTERS
        && within(1, Cell::MOST_HORIZON, h.horizon.0)
}

fn source_legal(letters: u32, source: u8) -> bool
    requires { letters ≤ most_letters }
    ensures { result ≡ source_legal letters source }
{
    u32::from(source) < 2 + 2 * letters
}

fn node_legal(letters: u32, n: Node) -> bool
    requires { letters ≤ most_letters }
    ensures { result ≡ node_legal letters n }
{
    source_legal(letters, n.start)
        && if n.role == INNER {
            within(1, MOST_CAPACITANCE, u64::from(n.capacitance.0))
        } else {
            n.role == INPUT && n.capacitance.0 == 0
        }
}

fn node_number(nodes: u32, n: u8) -> bool
    requires { nodes ≤ most_nodes }
    ensures { result ≡ node_number nodes n }
{
    u32::from(n) < u32::from(FIRST_NODE_NUMBER) + nodes
}

fn transistor_legal(nodes: u32, t: Transistor) -> bool
    requires { nodes ≤ most_nodes }
    ensures { result ≡ transistor_legal nodes t }
{
    t.polarity <= 1
        && node_number(nodes, t.gate)
        && node_number(nodes, t.first)
        && node_number(nodes, t.second)
        && t.first != t.second
        && within(1, Cell::MOST_RESISTANCE, u64::from(t.resistance.0))
}

fn is_input(cell: Cell, n: u8) -> bool
    requires { Counted cell.header }
    ensures { result ≡ is_input (circuit_of cell) n }
{
    if n < FIRST_NODE_NUMBER {
        return false;
    }
    let at = (n - FIRST_NODE_NUMBER) as usize;
    at < cell.header.nodes as usize && cell.nodes[at].role == INPUT
}

fn entry_legal(cell: Cell, e: Entry) -> bool
    requires { Counted cell.header }
    ensures { result ≡ entry_legal (circuit_of cell) e }
{
    is_input(cell, e.input)
        && source_legal(cell.header.letters, e.source)
        && within(1, cell.header.horizon.0, e.time.0)
}

fn nodes_legal(letters: u32, nodes: [Node; Cell::MOST_NODES as usize], count: u32) -> bool
    requires { (letters ≤ most_letters) × (count ≤ most_nodes) }
    ensures { result ≡ every (node_legal letters) (firsts count no_node nodes) }
{
    nodes[..count as usize]
        .iter()
        .all(|n| node_legal(letters, *n))
}

fn transistors_legal(
    nodes: u32,
    transistors: [Transistor; Cell::MOST_TRANSISTORS as usize],
    count: u32,
) -> bool
    requires { (nodes ≤ most_nodes) × (count ≤ most_transistors) }
    ensures { result ≡ every (transistor_legal nodes) (firsts count no_transistor transistors) }
{
    transistors[..count as usize]
        .iter()
        .all(|t| transistor_legal(nodes, *t))
}

fn entries_legal(cell: Cell) -> bool
    requires { Counted cell.header }
    ensures { result ≡ every (entry_legal (circuit_of cell)) (circuit_of cell).schedule }
{
    cell.schedule[..cell.header.entries as usize]
        .iter()
        .all(|e| entry_legal(cell, *e))
}

// Refusal 4.
pub fn fields_legal(cell: Cell) -> bool
    requires { Counted cell.header }
    ensures { result ≡ fields_legal (circuit_of cell) }
{
    let header = cell.header;
    nodes_legal(header.letters, cell.nodes, header.nodes)
        && transistors_legal(header.nodes, cell.transistors, header.transistors)
        && entries_legal(cell)
}

fn before(a: Entry, b: Entry) -> bool
    ensures { result ≡ defined.before a b }
{
    a.time.0 < b.time.0 || (a.time.0 == b.time.0 && a.input < b.input)
}

// Refusal 5.
pub fn rising(schedule: [Entry; Cell::MOST_ENTRIES as usize], count: u32) -> bool
    requires { count ≤ most_entries }
    ensures { result ≡ defined.rising (firsts count no_entry schedule) }
{
    schedule[..count as usize].is_sorted_by(|a, b| before(*a, *b))
}
