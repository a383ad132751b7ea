// The 16 bytes of the header and of each kind of record.
ghost use Rattle.std.specs.Prelude.{◌≡◌, ℕ, List, length};
ghost use Rattle.format.specs.Saved.{first_from, header_bytes, node_bytes, transistor_bytes, entry_bytes};
ghost use Rattle.format.proofs.SavedRecord.{node_bytes_length, transistor_bytes_length, entry_bytes_length};
ghost use Rattle.cell.specs.Counted.{Counted};

use format::{Entry, Header, Node, Transistor};
use records::kinds::FileRecord;

// The first number of a chain of so many records, numbered from r on.
pub fn first_from(r: u32, count: u32) -> u32
    ensures { result ≡ first_from r count }
{
    if count == 0 { 0 } else { r }
}

// The header; node records are numbered first, then transistors, then the schedule.
pub fn header_bytes(h: Header) -> [u8; 16]
    requires { Counted h }
    ensures { result ≡ header_bytes h }
{
    let horizon = h.horizon.0.to_le_bytes();
    let nodes = first_from(1, h.nodes).to_le_bytes();
    let transistors = first_from(1 + h.nodes, h.transistors).to_le_bytes();
    let entries = first_from(1 + h.nodes + h.transistors, h.entries).to_le_bytes();
    [
        h.nodes as u8,
        h.transistors as u8,
        h.entries as u8,
        h.letters as u8,
        horizon[0],
        horizon[1],
        horizon[2],
        horizon[3],
        nodes[0],
        nodes[1],
        transistors[0],
        transistors[1],
        entries[0],
        entries[1],
        0,
        0,
    ]
}

// A record as the 16 bytes that it is saved as, which name the next record of its chain.
pub trait SavedRecord: FileRecord {
    ghost bytes: { ℕ → Self → List ℕ };

    fn bytes(self, next: u32) -> [u8; 16]
        ensures { result ≡ bytes next self };

    ghost long: { (next : ℕ) (x : Self) → length (bytes next x) ≡ 16 };
}

impl SavedRecord for Node {
    ghost bytes = { node_bytes };

    ghost long = { node_bytes_length };

    fn bytes(self, next: u32) -> [u8; 16] {
        let link = next.to_le_bytes();
        let capacitance = self.capacitance.0.to_le_bytes();
        [
            Node::KIND,
            0,
            link[0],
            link[1],
            self.role,
            self.start,
            capacitance[0],
            capacitance[1],
            0,
            0,
            0,
            0,
            0,
            0,
            0,
            0,
        ]
    }
}

impl SavedRecord for Transistor {
    ghost bytes = { transistor_bytes };

    ghost long = { transistor_bytes_length };

    fn bytes(self, next: u32) -> [u8; 16] {
        let link = next.to_le_bytes();
        let resistance = self.resistance.0.to_le_bytes();
        [
            Transistor::KIND,
            0,
            link[0],
            link[1],
            self.polarity,
            self.gate,
            self.first,
            self.second,
            resistance[0],
            resistance[1],
            resistance[2],
            resistance[3],
            0,
            0,
            0,
            0,
        ]
    }
}

impl SavedRecord for Entry {
    ghost bytes = { entry_bytes };

    ghost long = { entry_bytes_length };

    fn bytes(self, next: u32) -> [u8; 16] {
        let link = next.to_le_bytes();
        let time = self.time.0.to_le_bytes();
        [
            Entry::KIND,
            0,
            link[0],
            link[1],
            self.input,
            self.source,
            0,
            0,
            time[0],
            time[1],
            time[2],
            time[3],
            0,
            0,
            0,
            0,
        ]
    }
}
