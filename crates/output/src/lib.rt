// What the programs print that write the file of a cell: the file to standard output, or a message to standard error.
// Promise: the bytes of both are those of the call that saved (specs/Printed.antt), and a refusal puts nothing on standard output.
// Where standard output does not take all bytes, standard error says `not written`.
#![tactic(auto)]

ghost use Rattle.std.specs.Prelude.{◌≤◌, length};
ghost use Rattle.fields.specs.Line.{line_room};
ghost use Rattle.output.specs.Printed.{SavingPrinted};

use fields::line::put_refused;
use refusal::Refusal;
use std::io::Write;

// How many bytes go to standard output, and how many to standard error.
#[derive(Clone, Copy)]
pub struct Printed {
    pub output: usize,
    pub errors: usize,
}

// What is to be printed of a call that saved: its file, or its refusal.
pub fn put_saving(errors: &mut [u8], saving: Result<u32, Refusal>) -> Printed
    requires { line_room ≤ length errors.old }
    ensures { SavingPrinted saving errors.new result }
{
    match saving {
        Ok(length) => Printed {
            output: length as usize,
            errors: 0,
        },
        Err(why) => {
            let end = put_refused(errors, 0, why);
            Printed {
                output: 0,
                errors: end,
            }
        }
    }
}

// Prints so many bytes of both buffers.
pub fn print<O: Write, E: Write>(
    stdout: &mut O,
    stderr: &mut E,
    out: &[u8],
    errors: &[u8],
    printed: Printed,
)
    requires { (printed.output ≤ length out.now) × (printed.errors ≤ length errors.now) }
{
    let output = printed.output;
    let messages = printed.errors;
    if stdout.write_all(&out[..output]).is_err() {
        let _ = stderr.write_all(b"not written\n");
    }
    let _ = stderr.write_all(&errors[..messages]);
}
