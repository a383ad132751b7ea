// Reads a cell file on standard input and prints it, every field of every record in chain order, or its refusal.
// What is printed is `shown_file` of the bytes that were read, by the contract of `put_shown` (crate fields).
#![tactic(auto)]

use fields::file::put_shown;
use std::io::Write;
use system::read_full;

fn main(rt: HostRuntime) {
    let mut space = [0u8; 4096];
    // longer than any cell: what is left of a longer input changes no answer (proofs/Prefix.antt of crate fields)
    let n = read_full(&mut rt.stdin(), &mut space);
    let mut out = [0u8; 16384];
    let end = put_shown(&mut out, &space[..n]);
    let _ = rt.stdout().write_all(&out[..end]);
}
