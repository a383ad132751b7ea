// The lines of a start and of a step, written into a lent buffer from a place on; the listing as a whole is a definition (specs/Listing.antt).
// Promise: the lines of a call's result are exactly the definition's bytes, and every other byte of the buffer is as it was.
// Crate listing makes the calls and prints; the columns are only read here, so that a wrong line is refused quickly.
#![tactic(auto)]

ghost use Rattle.std.specs.Prelude.{true, false, ◌+◌, ◌<◌, ◌≤◌, length, IfOk};
ghost use Rattle.diagram.specs.Held.{held};
ghost use Rattle.functions.specs.Open.{Legible};
ghost use Rattle.record.specs.declared.Run.{Run};
ghost use Rattle.fields.specs.Line.{refused_line};
ghost use Rattle.lines.specs.Listing.{node_line, end_line, stop_line};
ghost use Rattle.lines.specs.Lines.{line_room, call_room, Put, entry_line, node_lines, Entries, by_result};

use fields::line::put_refused;
use format::Header;
use operations::read::count;
use record::Run;
use refusal::Refusal;
use text::{put_bytes, put_ended, put_spaced};

// The node records are numbered from here on.
const FIRST_NODE: u32 = 2;

// A time, a node and the count of the patterns at which it is high.
fn put_node(out: &mut [u8], at: usize, time: u32, n: u32, high: u32) -> usize
    requires { at + line_room ≤ length out.old }
    ensures { Put out.old out.new at (node_line time n high) line_room result }
{
    let node = put_spaced(out, at, time);
    let patterns = put_spaced(out, node, n);
    put_ended(out, patterns, high)
}

// The line of entry `e`, where it is listed.
fn put_entry(
    out: &mut [u8],
    at: usize,
    letter: &[u32],
    low: &[u32],
    high: &[u32],
    used: u32,
    k: u32,
    time: u32,
    listed: bool,
    n: u32,
    e: u32,
) -> usize
    requires { Legible k letter.now low.now high.now used × (e < used) × (at + line_room ≤ length out.old) }
    ensures { Put out.old out.new at (entry_line k (held letter.now low.now high.now used) time listed n e) line_room result }
{
    if !listed {
        return at;
    }
    let patterns = count(letter, low, high, used, k, e);
    put_node(out, at, time, n, patterns)
}

// Every node record, or those whose entry is another than before.
fn put_nodes(
    out: &mut [u8],
    at: usize,
    letter: &[u32],
    low: &[u32],
    high: &[u32],
    h: Header,
    r: Run,
    all: bool,
    before: [u32; 24],
) -> usize
    requires { Entries h.letters h.nodes letter.now low.now high.now r.used r.values × (at + call_room ≤ length out.old) }
    ensures { Put out.old out.new at (node_lines h.letters h.nodes (held letter.now low.now high.now r.used) r.time all r.values before) call_room result }
{
    let values = r.values;
    let used = r.used;
    let time = r.time;
    let k = h.letters;
    let nodes = h.nodes;
    let mut end = at;
    for i in 0..nodes {
        let p = i as usize;
        let e = values[p];
        let listed = all | (e != before[p]);
        let n = FIRST_NODE + i;
        end = put_entry(out, end, letter, low, high, used, k, time, listed, n, e);
    }
    end
}

fn put_end(out: &mut [u8], at: usize, time: u32, steps: u32) -> usize
    requires { at + call_room ≤ length out.old }
    ensures { Put out.old out.new at (end_line time steps) call_room result }
{
    let reached = put_bytes(out, at, b"end ");
    let count = put_spaced(out, reached, time);
    put_ended(out, count, steps)
}

// Finished is the end; any other refusal is told by its number.
fn put_stop(out: &mut [u8], at: usize, why: Refusal, time: u32, steps: u32) -> usize
    requires { at + call_room ≤ length out.old }
    ensures { Put out.old out.new at (stop_line time steps why) call_room result }
{
    if why == Refusal::Finished {
        return put_end(out, at, time, steps);
    }
    put_refused(out, at, why)
}

// What a start gave: every node record, or the refusal.
pub fn put_started(
    out: &mut [u8],
    at: usize,
    letter: &[u32],
    low: &[u32],
    high: &[u32],
    h: Header,
    started: Result<Run, Refusal>,
) -> usize
    requires { IfOk started (λ (r : Run). Entries h.letters h.nodes letter.now low.now high.now r.used r.values) × (at + call_room ≤ length out.old) }
    ensures { Put out.old out.new at (by_result started (λ r. node_lines h.letters h.nodes (held letter.now low.now high.now r.used) r.time true r.values r.values) refused_line) call_room result }
{
    match started {
        Ok(r) => put_nodes(out, at, letter, low, high, h, r, true, r.values),
        Err(why) => put_refused(out, at, why),
    }
}

// What a step gave, with the run and the steps before it: each node record whose entry is another, the end, or the refusal.
pub fn put_stepped(
    out: &mut [u8],
    at: usize,
    letter: &[u32],
    low: &[u32],
    high: &[u32],
    h: Header,
    stepped: Result<Run, Refusal>,
    before: Run,
    steps: u32,
) -> usize
    requires { IfOk stepped (λ (r : Run). Entries h.letters h.nodes letter.now low.now high.now r.used r.values) × (at + call_room ≤ length out.old) }
    ensures { Put out.old out.new at (by_result stepped (λ r. node_lines h.letters h.nodes (held letter.now low.now high.now r.used) r.time false r.values before.values) (stop_line before.time steps)) call_room result }
{
    match stepped {
        Ok(r) => put_nodes(out, at, letter, low, high, h, r, false, before.values),
        Err(why) => put_stop(out, at, why, before.time, steps),
    }
}
