// The chains of records.
ghost use Rattle.std.specs.Prelude.{◌≡◌, ◌&&◌, ◌+◌, ◌*◌, ◌≤◌, eqb, length};
ghost use Rattle.format.specs.Legal.{within};
ghost use Rattle.format.specs.File.{kind_at, next_at, chain};
ghost use Rattle.records.specs.Chain.{chain_found};

use crate::bytes::{half_at, record_at};

// Whether r is a record of the kind.
fn is_link(file: &[u8], count: u32, kind: u8, r: u32) -> bool
    requires { 16 * (1 + count) ≤ length file.now }
    ensures { result ≡ (within 1 count r && eqb (kind_at file.now r) kind) }
{
    1 <= r && r <= count && file[record_at(r)] == kind
}

fn next_at(file: &[u8], r: u32) -> u32
    requires { 16 * r + 16 ≤ length file.now }
    ensures { result ≡ next_at file.now r }
{
    half_at(file, record_at(r) + 2)
}

// The n records of the kind from the first on, in a file of count records: their numbers in the first places, zero in the others.
pub fn chain(file: &[u8], count: u32, kind: u8, n: u32, first: u32) -> Option<[u32; 64]>
    requires { (16 * (1 + count) ≤ length file.now) × (n ≤ 64) }
    ensures { result ≡ chain_found (chain file.now count kind n first) }
{
    let mut records = [0u32; 64];
    let mut r = first;
    for k in 0..n as usize {
        if !is_link(file, count, kind, r) {
            return None;
        }
        records[k] = r;
        r = next_at(file, r);
    }
    if r == 0 { Some(records) } else { None }
}
