// Reads a cell file on standard input and writes it in its saved form to standard output, or its refusal to standard error.
// What goes where is `saved_output` and `saved_errors` (crate output's specs/Printed.antt) of the bytes that were read, by the contract of `put_saved`.
// Nothing goes to standard output where the file is refused.
#![tactic(auto)]

ghost use Rattle.std.specs.Prelude.{◌≤◌, length};
ghost use Rattle.format.specs.File.{read_cell};
ghost use Rattle.fields.specs.Line.{line_room};
ghost use Rattle.output.specs.Printed.{most_bytes, saved_output, saved_errors, Prints};

use cell::Cell;
use output::{Printed, print, put_saving};
use system::read_full;
use writer::save_file;

fn put_saved(out: &mut [u8], errors: &mut [u8], file: &[u8]) -> Printed
    requires { (most_bytes ≤ length out.old) × (line_room ≤ length errors.old) }
    ensures { Prints (saved_output (read_cell file.now)) (saved_errors (read_cell file.now)) out.new errors.new result }
{
    let saving = save_file(out, file);
    put_saving(errors, saving)
}

fn main(rt: HostRuntime) {
    let mut space = [0u8; 4096];
    // longer than any cell: what is left of a longer input changes no answer (proofs/Prefix.antt)
    let n = read_full(&mut rt.stdin(), &mut space);
    let mut out = [0u8; Cell::MOST_BYTES];
    let mut errors = [0u8; 96];
    let printed = put_saved(&mut out, &mut errors, &space[..n]);
    print(&mut rt.stdout(), &mut rt.stderr(), &out, &errors, printed);
}
