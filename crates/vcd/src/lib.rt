// The value change dump of one pattern's run, for waveform viewers (document 02, wish 5): the dump as a list of bytes, with its laws, and its
// lines written into a lent buffer from a place on.
// Promise: each function leaves the buffer with exactly the bytes of specs/Lines.antt at the place, every other byte as it was, and answers where
// they end. No program calls these yet, and specs/Told.antt, that a viewer reads off a dump what the run question answers, is a statement without a proof.
#![tactic(auto)]

ghost use Rattle.std.specs.Prelude.{◌≡◌, [], cond, ◌+◌, ◌<◌, ◌≤◌, length, eqb};
ghost use Rattle.format.specs.Legal.{most_nodes};
ghost use Rattle.text.specs.Written.{Wrote};
ghost use Rattle.vcd.specs.Lines.{by_node, var_line, declarations, value_line, value_lines, change_lines, unchanged, moment_lines, time_line};
ghost use Rattle.vcd.specs.Column.{in_column, Values};

use text::{put_byte, put_bytes, put_decimal, put_ended};

// The node records are numbered from here on.
const FIRST_NODE: u32 = 2;

// A node's identifier is the character with this code plus its number.
const IDENTIFIERS: u32 = 33;

// The wire of node n.
fn put_var(out: &mut [u8], at: usize, n: u32) -> usize
    requires { (n < 2 + most_nodes) × (at + length (var_line n) ≤ length out.old) }
    ensures { Wrote out.old out.new at (var_line n) result }
{
    let word = put_bytes(out, at, b"$var wire 1 ");
    let name = put_bytes(out, word, &[(IDENTIFIERS + n) as u8, b' ', b'n']);
    let number = put_decimal(out, name, n);
    put_bytes(out, number, b" $end\n")
}

fn put_vars(out: &mut [u8], at: usize, nodes: u32) -> usize
    requires { (nodes ≤ most_nodes) × (at + length (by_node nodes var_line) ≤ length out.old) }
    ensures { Wrote out.old out.new at (by_node nodes var_line) result }
{
    let mut end = at;
    for i in 0..nodes {
        end = put_var(out, end, FIRST_NODE + i);
    }
    end
}

// All that comes before the first time.
pub fn put_declarations(out: &mut [u8], at: usize, nodes: u32) -> usize
    requires { (nodes ≤ most_nodes) × (at + length (declarations nodes) ≤ length out.old) }
    ensures { Wrote out.old out.new at (declarations nodes) result }
{
    let scale = put_bytes(out, at, b"$timescale 1 ps $end\n");
    let scope = put_bytes(out, scale, b"$scope module cell $end\n");
    let vars = put_vars(out, scope, nodes);
    let up = put_bytes(out, vars, b"$upscope $end\n");
    put_bytes(out, up, b"$enddefinitions $end\n")
}

// The value of node n, a digit, then its identifier.
fn put_value(out: &mut [u8], at: usize, n: u32, value: u32) -> usize
    requires { (n < 2 + most_nodes) × (value ≤ 1) × (at + length (value_line n value) ≤ length out.old) }
    ensures { Wrote out.old out.new at (value_line n value) result }
{
    put_bytes(
        out,
        at,
        &[(48 + value) as u8, (IDENTIFIERS + n) as u8, b'\n'],
    )
}

// The values of all node records, which a column holds by node number.
pub fn put_values(out: &mut [u8], at: usize, nodes: u32, values: &[u32]) -> usize
    requires { Values nodes values.now × (at + length (value_lines nodes (in_column values.now)) ≤ length out.old) }
    ensures { Wrote out.old out.new at (value_lines nodes (in_column values.now)) result }
{
    let mut end = at;
    for i in 0..nodes {
        let n = FIRST_NODE + i;
        end = put_value(out, end, n, values[n as usize]);
    }
    end
}

// The value of node n where it is another than before.
fn put_change(out: &mut [u8], at: usize, n: u32, before: u32, after: u32) -> usize
    requires { (n < 2 + most_nodes) × (after ≤ 1) × (at + length (cond (eqb before after) [] (value_line n after)) ≤ length out.old) }
    ensures { Wrote out.old out.new at (cond (eqb before after) [] (value_line n after)) result }
{
    if before == after {
        return at;
    }
    put_value(out, at, n, after)
}

fn put_changes(out: &mut [u8], at: usize, nodes: u32, before: &[u32], after: &[u32]) -> usize
    requires { Values nodes before.now × Values nodes after.now × (at + length (change_lines nodes (in_column before.now) (in_column after.now)) ≤ length out.old) }
    ensures { Wrote out.old out.new at (change_lines nodes (in_column before.now) (in_column after.now)) result }
{
    let mut end = at;
    for i in 0..nodes {
        let n = FIRST_NODE + i;
        let place = n as usize;
        end = put_change(out, end, n, before[place], after[place]);
    }
    end
}

// Whether no node record has another value than before.
fn is_unchanged(nodes: u32, before: &[u32], after: &[u32]) -> bool
    requires { Values nodes before.now × Values nodes after.now }
    ensures { result ≡ unchanged nodes (in_column before.now) (in_column after.now) }
{
    let first = FIRST_NODE as usize;
    let end = first + nodes as usize;
    before[first..end] == after[first..end]
}

// A time: '#' and its digits.
pub fn put_time(out: &mut [u8], at: usize, time: u32) -> usize
    requires { at + length (time_line time) ≤ length out.old }
    ensures { Wrote out.old out.new at (time_line time) result }
{
    let mark = put_byte(out, at, b'#');
    put_ended(out, mark, time)
}

// A time with its changes, or nothing where it has none.
pub fn put_moment(
    out: &mut [u8],
    at: usize,
    nodes: u32,
    time: u32,
    before: &[u32],
    after: &[u32],
) -> usize
    requires { Values nodes before.now × Values nodes after.now × (at + length (moment_lines nodes time (in_column before.now) (in_column after.now)) ≤ length out.old) }
    ensures { Wrote out.old out.new at (moment_lines nodes time (in_column before.now) (in_column after.now)) result }
{
    if is_unchanged(nodes, before, after) {
        return at;
    }
    let changes = put_time(out, at, time);
    put_changes(out, changes, nodes, before, after)
}
