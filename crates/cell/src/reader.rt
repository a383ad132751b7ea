// The reader's parts, in the order of the definitions: header, length, chains, fields.
ghost use Rattle.std.specs.Prelude.{◌≡◌, ◌<◌, ◌≤◌, length};
ghost use Rattle.format.specs.File.{half_at, file_header, header_legal, record_count, chain, read_chains};
ghost use Rattle.records.specs.Chain.{chain_found};
ghost use Rattle.cell.specs.Value.{cell_of, reading};
ghost use Rattle.cell.specs.Reader.{Full, Chained, blanks_at, circuit_at, fields_at};

use crate::size::record_count;
use crate::{Cell, legal};
use format::{Entry, Header, Node, Transistor};
use records::kinds::{FileRecord, records_at, records_blank};
use records::{bytes, chains};
use refusal::Refusal;

const UNNAMED: usize = 14;

const FIRST_NODE: usize = 8;

const FIRST_TRANSISTOR: usize = 10;

const FIRST_ENTRY: usize = 12;

pub fn header_legal(file: &[u8], header: Header) -> bool
    requires { (16 ≤ length file.now) × (header ≡ file_header file.now) }
    ensures { result ≡ header_legal file.now }
{
    legal::limits_kept(header) && bytes::zero_bytes(file, 2, UNNAMED)
}

// No record of the three chains has a byte without a name that is not zero.
fn blank(file: &[u8], header: Header, ns: [u32; 64], ts: [u32; 64], es: [u32; 64]) -> bool
    requires { Chained file.now header ns ts es }
    ensures { result ≡ blanks_at file.now header ns ts es }
{
    records_blank::<Node>(file, ns, header.nodes)
        && records_blank::<Transistor>(file, ts, header.transistors)
        && records_blank::<Entry>(file, es, header.entries)
}

fn cell_at(file: &[u8], header: Header, ns: [u32; 64], ts: [u32; 64], es: [u32; 64]) -> Cell
    requires { Chained file.now header ns ts es }
    ensures { result ≡ cell_of (circuit_at file.now header ns ts es) }
{
    Cell {
        header,
        nodes: records_at(file, ns, header.nodes),
        transistors: records_at(file, ts, header.transistors),
        schedule: records_at(file, es, header.entries),
    }
}

// Refusals 4 and 5.
fn read_fields(
    file: &[u8],
    header: Header,
    ns: [u32; 64],
    ts: [u32; 64],
    es: [u32; 64],
) -> Result<Cell, Refusal>
    requires { Chained file.now header ns ts es }
    ensures { result ≡ reading (fields_at file.now header ns ts es) }
{
    let cell = cell_at(file, header, ns, ts, es);
    if !(blank(file, header, ns, ts, es) & legal::fields_legal(cell)) {
        return Err(Refusal::Record);
    }
    let schedule = cell.schedule;
    if !legal::rising(schedule, cell.header.entries) {
        return Err(Refusal::Order);
    }
    Ok(cell)
}

// The chain of n records of a kind, whose first record stands at byte `at` of the header.
fn chain_from(file: &[u8], header: Header, kind: u8, n: u32, at: usize) -> Option<[u32; 64]>
    requires full { Full file.now header }
    requires n_bound { (n ≤ 64) × (at < 15) }
    ensures { result ≡ chain_found (chain file.now (record_count header) kind n (half_at file.now at)) }
{
    let count = record_count(header);
    let first = bytes::half_at(file, at);
    chains::chain(file, count, kind, n, first)
}

// Refusal 3, then 4 and 5.
pub fn read_chains(file: &[u8], header: Header) -> Result<Cell, Refusal>
    requires { Full file.now header }
    ensures { result ≡ reading (read_chains file.now header) }
{
    let Some(ns) = chain_from(file, header, Node::KIND, header.nodes, FIRST_NODE) else {
        return Err(Refusal::Chain);
    };
    let Some(ts) = chain_from(
        file,
        header,
        Transistor::KIND,
        header.transistors,
        FIRST_TRANSISTOR,
    ) else {
        return Err(Refusal::Chain);
    };
    let Some(es) = chain_from(file, header, Entry::KIND, header.entries, FIRST_ENTRY) else {
        return Err(Refusal::Chain);
    };
    read_fields(file, header, ns, ts, es)
}
