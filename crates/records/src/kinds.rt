// The kinds of records, and the fields of each.
ghost use Rattle.std.specs.Prelude.{◌≡◌, ℕ, Bool, List, map, ◌+◌, ◌*◌, ◌≤◌, length, take};
ghost use Rattle.format.specs.Circuit.{no_node, no_transistor, no_entry, every};
ghost use Rattle.format.specs.File.{node_kind, transistor_kind, entry_kind, node_at, transistor_at, entry_at, node_blank, transistor_blank, entry_blank};
ghost use Rattle.lists.specs.Padded.{padded};
ghost use Rattle.records.specs.Chain.{Inside};

use crate::bytes::{half_at, record_at, word_at, zero_bytes};
use format::{Entry, Node, Transistor};
use units::{Femtofarads, Ohms, Picoseconds};

// A record of the file: the byte of its kind, what stands in a place without one, its fields, and whether its bytes without a name are zero.
pub trait FileRecord: Copy {
    ghost KIND: { ℕ };

    ghost NONE: { Self };

    ghost at: { List ℕ → ℕ → Self };

    ghost blank: { List ℕ → ℕ → Bool };

    const KIND: u8;

    const NONE: Self;

    fn read(file: &[u8], r: u32) -> Self
        requires { 16 * r + 16 ≤ length file.now }
        ensures { result ≡ at file.now r };

    fn is_blank(file: &[u8], r: u32) -> bool
        requires { 16 * r + 16 ≤ length file.now }
        ensures { result ≡ blank file.now r };
}

impl FileRecord for Node {
    ghost KIND = { node_kind };

    ghost NONE = { no_node };

    ghost at = { node_at };

    ghost blank = { node_blank };

    const KIND: u8 = 1;

    const NONE: Node = Node {
        role: 0,
        start: 0,
        capacitance: Femtofarads(0),
    };

    fn read(file: &[u8], r: u32) -> Node {
        let i = record_at(r);
        Node {
            role: file[i + 4],
            start: file[i + 5],
            capacitance: Femtofarads(half_at(file, i + 6)),
        }
    }

    fn is_blank(file: &[u8], r: u32) -> bool {
        let i = record_at(r);
        zero_bytes(file, 1, i + 1) && zero_bytes(file, 8, i + 8)
    }
}

impl FileRecord for Transistor {
    ghost KIND = { transistor_kind };

    ghost NONE = { no_transistor };

    ghost at = { transistor_at };

    ghost blank = { transistor_blank };

    const KIND: u8 = 2;

    const NONE: Transistor = Transistor {
        polarity: 0,
        gate: 0,
        first: 0,
        second: 0,
        resistance: Ohms(0),
    };

    fn read(file: &[u8], r: u32) -> Transistor {
        let i = record_at(r);
        Transistor {
            polarity: file[i + 4],
            gate: file[i + 5],
            first: file[i + 6],
            second: file[i + 7],
            resistance: Ohms(word_at(file, i + 8)),
        }
    }

    fn is_blank(file: &[u8], r: u32) -> bool {
        let i = record_at(r);
        zero_bytes(file, 1, i + 1) && zero_bytes(file, 4, i + 12)
    }
}

impl FileRecord for Entry {
    ghost KIND = { entry_kind };

    ghost NONE = { no_entry };

    ghost at = { entry_at };

    ghost blank = { entry_blank };

    const KIND: u8 = 3;

    const NONE: Entry = Entry {
        input: 0,
        source: 0,
        time: Picoseconds(0),
    };

    fn read(file: &[u8], r: u32) -> Entry {
        let i = record_at(r);
        Entry {
            input: file[i + 4],
            source: file[i + 5],
            time: Picoseconds(u64::from(word_at(file, i + 8))),
        }
    }

    fn is_blank(file: &[u8], r: u32) -> bool {
        let i = record_at(r);
        zero_bytes(file, 1, i + 1) && zero_bytes(file, 2, i + 6) && zero_bytes(file, 4, i + 12)
    }
}

// The first n of the records, in N places.
pub fn records_at<R: FileRecord, const N: usize>(file: &[u8], records: [u32; 64], n: u32) -> [R; N]
    requires { (n ≤ N) × (n ≤ 64) × Inside file.now n records }
    ensures { result ≡ padded N R.NONE (map (R.at file.now) (take n records)) }
{
    let mut found = [R::NONE; N];
    for k in 0..n as usize {
        found[k] = R::read(file, records[k]);
    }
    found
}

// Whether the first n of the records have no byte without a name that is not zero.
pub fn records_blank<R: FileRecord>(file: &[u8], records: [u32; 64], n: u32) -> bool
    requires { (n ≤ 64) × Inside file.now n records }
    ensures { result ≡ every (R.blank file.now) (take n records) }
{
    records[..n as usize].iter().all(|r| R::is_blank(file, *r))
}
