// The run question.
ghost use Rattle.std.specs.Prelude.{◌≡◌, true};
ghost use Rattle.refusal.specs.Answer.{answered};
ghost use Rattle.format.specs.Legal.{check_circuit};
ghost use Rattle.format.specs.File.{read_cell};
ghost use Rattle.cell.specs.Value.{circuit_of, cell_by};
ghost use Rattle.diagram.specs.Call.{columns, lengths_legal};
ghost use Rattle.rules.specs.Call.{ask_call};
ghost use Rattle.table.specs.Holds.{Sized, Empty};
ghost use Rattle.net.specs.Net.{net_circuit};
ghost use Rattle.net.specs.Laid.{Laid};
ghost use Rattle.advance.specs.Task.{run_in};
ghost use Rattle.run.specs.Asked.{AskedAs};
ghost use Rattle.run.specs.Replied.{Replied};

use cell::Cell;
use operations::read::is_pattern;
use record::{Run, Wire, run_sound, wire_at};
use refusal::Refusal;
use table::{index_len, lengths_legal, sound};

// On a cell laid out flat, with columns of legal lengths and an empty index.
fn ask_open(
    net: &[u32],
    letter: &[u32],
    low: &[u32],
    high: &[u32],
    index: &mut [u32],
    r: Run,
    n: u32,
    p: u32,
) -> Result<Wire, Refusal>
    requires { Laid (net_circuit net.now) net.now × (lengths_legal (columns letter.now low.now high.now) ≡ true) × Sized letter.now low.now high.now index.old × Empty index.old }
    ensures { AskedAs (ask_call (answered (net_circuit net.now)) (columns letter.now low.now high.now) (run_in (answered (net_circuit net.now)) r) n p) result }
{
    let k = net[net::LETTERS];
    let nodes = net[net::NODES];
    let used = r.used;
    if !sound(k, letter, low, high, used, index) {
        return Err(Refusal::Unsound);
    }
    if !run_sound(net, letter, low, high, r) {
        return Err(Refusal::Unsound);
    }
    if nodes + 2 <= n {
        return Err(Refusal::Question);
    }
    if !is_pattern(k, p) {
        return Err(Refusal::Question);
    }
    Ok(wire_at(net, letter, low, high, r, n, p))
}

// On a legal cell, with columns of legal lengths.
fn ask_legal(
    cell: Cell,
    letter: &[u32],
    low: &[u32],
    high: &[u32],
    r: Run,
    n: u32,
    p: u32,
) -> Result<Wire, Refusal>
    requires { (check_circuit (circuit_of cell) ≡ answered (circuit_of cell)) × (lengths_legal (columns letter.now low.now high.now) ≡ true) }
    ensures { AskedAs (ask_call (answered (circuit_of cell)) (columns letter.now low.now high.now) (run_in (answered (circuit_of cell)) r) n p) result }
{
    let net = net::lay(cell);
    let m = index_len(letter.len());
    let mut index = [0u32; 131072];
    ask_open(&net, letter, low, high, &mut index[..m], r, n, p)
}

// On a cell that was read or checked, or its refusal.
fn ask_replied(
    read: Result<Cell, Refusal>,
    letter: &[u32],
    low: &[u32],
    high: &[u32],
    r: Run,
    n: u32,
    p: u32,
) -> Result<Wire, Refusal>
    requires { Replied read }
    ensures { AskedAs (ask_call (cell_by read) (columns letter.now low.now high.now) (run_in (cell_by read) r) n p) result }
{
    if !lengths_legal(letter, low, high) {
        return Err(Refusal::Buffer);
    }
    ask_legal(read?, letter, low, high, r, n, p)
}

// On a cell file.
pub fn ask_file(
    file: &[u8],
    letter: &[u32],
    low: &[u32],
    high: &[u32],
    r: Run,
    n: u32,
    p: u32,
) -> Result<Wire, Refusal>
    ensures { AskedAs (ask_call (read_cell file.now) (columns letter.now low.now high.now) (run_in (read_cell file.now) r) n p) result }
{
    let read = Cell::read(file);
    ask_replied(read, letter, low, high, r, n, p)
}

// On a cell by value.
pub fn ask_cell(
    cell: Cell,
    letter: &[u32],
    low: &[u32],
    high: &[u32],
    r: Run,
    n: u32,
    p: u32,
) -> Result<Wire, Refusal>
    ensures { AskedAs (ask_call (check_circuit (circuit_of cell)) (columns letter.now low.now high.now) (run_in (check_circuit (circuit_of cell)) r) n p) result }
{
    let checked = cell.check().and(Ok(cell));
    ask_replied(checked, letter, low, high, r, n, p)
}
