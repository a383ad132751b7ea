// A line, from a place of the buffer on.
ghost use Rattle.std.specs.Prelude.{ℕ, List, cond, ◌+◌, ◌≤◌, length};
ghost use Rattle.format.specs.Circuit.{no_node, no_transistor, no_entry};
ghost use Rattle.text.specs.Written.{Wrote};
ghost use Rattle.fields.specs.Line.{line_room, LineWrote, cell_line, refused_line, source_end, node_line, channel_ends, transistor_line, entry_time, entry_line};

use format::{Entry, Header, Node, Transistor};
use refusal::Refusal;
use text::{put_byte, put_bytes, put_decimal_u64, put_ended, put_spaced};

pub fn put_cell(out: &mut [u8], at: usize, h: Header) -> usize
    requires { at + line_room ≤ length out.old }
    ensures { LineWrote out.old out.new at (cell_line h) result }
{
    let word = put_bytes(out, at, b"cell ");
    let nodes = put_spaced(out, word, h.nodes);
    let transistors = put_spaced(out, nodes, h.transistors);
    let entries = put_spaced(out, transistors, h.entries);
    let letters = put_spaced(out, entries, h.letters);
    let horizon = put_decimal_u64(out, letters, h.horizon.0);
    put_byte(out, horizon, b'\n')
}

pub fn put_refused(out: &mut [u8], at: usize, why: Refusal) -> usize
    requires { at + line_room ≤ length out.old }
    ensures { LineWrote out.old out.new at (refused_line why) result }
{
    let number = u32::from(why);
    let word = put_bytes(out, at, b"refused ");
    put_ended(out, word, number)
}

// One word where the test passes, else the other.
fn put_either(out: &mut [u8], at: usize, test: bool, yes: &[u8], no: &[u8]) -> usize
    requires { at + length (cond test yes.now no.now) ≤ length out.old }
    ensures { Wrote out.old out.new at (cond test yes.now no.now) result }
{
    put_bytes(out, at, if test { yes } else { no })
}

// The rest of a line that ends in a source.
fn put_source(out: &mut [u8], at: usize, source: u8) -> usize
    requires { at + length (source_end source) ≤ length out.old }
    ensures { Wrote out.old out.new at (source_end source) result }
{
    match source {
        0 => put_bytes(out, at, b"low\n"),
        1 => put_bytes(out, at, b"high\n"),
        _ => {
            let word = put_either(out, at, source % 2 == 1, b"not letter ", b"letter ");
            put_ended(out, word, ((source - 2) / 2) as u32)
        }
    }
}

// The numbers of the two channel ends.
fn put_ends(out: &mut [u8], at: usize, t: Transistor) -> usize
    requires { at + length (channel_ends t) ≤ length out.old }
    ensures { Wrote out.old out.new at (channel_ends t) result }
{
    let word = put_bytes(out, at, b"ends ");
    let first = put_spaced(out, word, t.first as u32);
    put_spaced(out, first, t.second as u32)
}

// When an entry comes.
fn put_time(out: &mut [u8], at: usize, e: Entry) -> usize
    requires { at + length (entry_time e) ≤ length out.old }
    ensures { Wrote out.old out.new at (entry_time e) result }
{
    let word = put_bytes(out, at, b"time ");
    let time = put_decimal_u64(out, word, e.time.0);
    put_bytes(out, time, b" ps node ")
}

// A record with a line of its own, which begins with the record's number.
pub trait Line: Copy {
    // What stands in a place where there is no record.
    ghost none: { Self };

    ghost line: { ℕ → Self → List ℕ };

    fn put(self, out: &mut [u8], at: usize, number: u32) -> usize
        requires { at + line_room ≤ length out.old }
        ensures { LineWrote out.old out.new at (line number self) result };
}

impl Line for Node {
    ghost none = { no_node };

    ghost line = { node_line };

    fn put(self, out: &mut [u8], at: usize, number: u32) -> usize {
        let word = put_bytes(out, at, b"node ");
        let own = put_spaced(out, word, number);
        let role = put_either(out, own, self.role == 0, b"inner ", b"input ");
        let capacitance = put_spaced(out, role, self.capacitance.0);
        let start = put_bytes(out, capacitance, b"fF start ");
        put_source(out, start, self.start)
    }
}

impl Line for Transistor {
    ghost none = { no_transistor };

    ghost line = { transistor_line };

    fn put(self, out: &mut [u8], at: usize, number: u32) -> usize {
        let word = put_bytes(out, at, b"transistor ");
        let own = put_spaced(out, word, number);
        let polarity = put_either(out, own, self.polarity == 0, b"n gate ", b"p gate ");
        let gate = put_spaced(out, polarity, self.gate as u32);
        let ends = put_ends(out, gate, self);
        let resistance = put_spaced(out, ends, self.resistance.0);
        put_bytes(out, resistance, b"ohm\n")
    }
}

impl Line for Entry {
    ghost none = { no_entry };

    ghost line = { entry_line };

    fn put(self, out: &mut [u8], at: usize, number: u32) -> usize {
        let word = put_bytes(out, at, b"entry ");
        let own = put_spaced(out, word, number);
        let time = put_time(out, own, self);
        let input = put_spaced(out, time, self.input as u32);
        let becomes = put_bytes(out, input, b"becomes ");
        put_source(out, becomes, self.source)
    }
}
