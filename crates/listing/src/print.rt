// Prints the listing of a cell file: reads, makes the calls one after the other, and writes their lines.
ghost use Rattle.std.specs.Prelude.{◌≤◌};

use crate::list::{list_start, list_step};
use cell::Cell;
use fields::line::{put_cell, put_refused};
use format::Header;
use record::Run;
use refusal::Refusal;
use std::io::{Read, Write};
use system::read_full;

// The used count of a fresh table.
const FRESH: u32 = 3;

// Each step takes at least a picosecond, so there are no more than the horizon has, and one refusal.
const MOST_STEPS: u32 = 1000001;

fn print_cell<W: Write>(output: &mut W, h: Header) {
    let mut out = [0u8; 96];
    let end = put_cell(&mut out, 0, h);
    let _ = output.write_all(&out[..end]);
}

fn print_refusal<W: Write>(output: &mut W, why: Refusal) {
    let mut out = [0u8; 96];
    let end = put_refused(&mut out, 0, why);
    let _ = output.write_all(&out[..end]);
}

// The steps after a start.
fn print_steps<W: Write>(
    output: &mut W,
    cell: Cell,
    letter: &mut [u32],
    low: &mut [u32],
    high: &mut [u32],
    r: Run,
    wletter: &mut [u32],
    wlow: &mut [u32],
    whigh: &mut [u32],
) {
    let mut out = [0u8; 4096];
    let mut now = r;
    for steps in 0..MOST_STEPS {
        let listed = list_step(
            cell, letter, low, high, now, wletter, wlow, whigh, steps, &mut out, 0,
        );
        let end = listed.end;
        let _ = output.write_all(&out[..end]);
        match listed.run {
            Ok(run) => now = run,
            Err(_) => return,
        }
    }
}

fn print_run<W: Write>(
    output: &mut W,
    cell: Cell,
    letter: &mut [u32],
    low: &mut [u32],
    high: &mut [u32],
    wletter: &mut [u32],
    wlow: &mut [u32],
    whigh: &mut [u32],
) {
    let mut out = [0u8; 4096];
    let listed = list_start(
        cell, letter, low, high, FRESH, wletter, wlow, whigh, &mut out, 0,
    );
    let end = listed.end;
    let _ = output.write_all(&out[..end]);
    if let Ok(r) = listed.run {
        print_steps(output, cell, letter, low, high, r, wletter, wlow, whigh);
    }
}

// The listing of a cell file, with a table and a working table of the lengths lent.
fn print_listing<W: Write>(
    output: &mut W,
    file: &[u8],
    letter: &mut [u32],
    low: &mut [u32],
    high: &mut [u32],
    wletter: &mut [u32],
    wlow: &mut [u32],
    whigh: &mut [u32],
) {
    match Cell::read(file) {
        Ok(cell) => {
            print_cell(output, cell.header);
            // lengths that are refused here are refused by the start
            let _ = table::fresh(letter, low, high);
            print_run(output, cell, letter, low, high, wletter, wlow, whigh);
        }
        Err(why) => print_refusal(output, why),
    }
}

// The listing of what a stream gives, with a table of `size` entries and a working table of 4,096.
pub fn print_file<R: Read, W: Write>(input: &mut R, output: &mut W, size: usize)
    requires { size ≤ 65536 }
{
    let mut space = [0u8; 4096];
    // longer than any cell: what is left of a longer input changes no answer
    let n = read_full(input, &mut space);
    let mut letter = [0u32; 65536];
    let mut low = [0u32; 65536];
    let mut high = [0u32; 65536];
    let mut work_letter = [0u32; 4096];
    let mut work_low = [0u32; 4096];
    let mut work_high = [0u32; 4096];
    print_listing(
        output,
        &space[..n],
        &mut letter[..size],
        &mut low[..size],
        &mut high[..size],
        &mut work_letter,
        &mut work_low,
        &mut work_high,
    );
}
