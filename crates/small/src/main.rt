// Writes the file of the small cell at the place that its argument names (document 02, wish 12), or a message to standard error.
// What goes where is `small_output` and `small_errors` (specs/Asked.antt) of the argument, by the contract of `put_small`.
// One argument, digits alone: any other, more or none give a usage line, and a number past the last place, however long, is `refused 9`.
#![tactic(auto)]

ghost use Rattle.std.specs.Prelude.{◌≤◌, length};
ghost use Rattle.refusal.specs.declared.Refusal.TheVariants.{Question};
ghost use Rattle.text.specs.Number.{parsed};
ghost use Rattle.fields.specs.Line.{line_room, refused_line};
ghost use Rattle.output.specs.Printed.{most_bytes, saved_output, saved_errors, Prints};
ghost use Rattle.catalog.specs.Lists.{listed_at};
ghost use Rattle.catalog.specs.Small.{small_cells};
ghost use Rattle.small.specs.Asked.{usage_line, small_output, small_errors, Message};

use catalog::save_small;
use cell::Cell;
use output::{Printed, print, put_saving};
use refusal::Refusal;
use std::env::Env;
use text::{ParseError, parse, put_bytes};

// Longer than an argument can be on Linux; one that does not fit is taken for none.
const LONGEST: usize = 131072;

fn put_usage(errors: &mut [u8]) -> Printed
    requires { line_room ≤ length errors.old }
    ensures { Message usage_line errors.new result }
{
    let end = put_bytes(errors, 0, b"usage: small PLACE, a number from 0 to 9311\n");
    Printed {
        output: 0,
        errors: end,
    }
}

// The cell at a place.
fn put_place(out: &mut [u8], errors: &mut [u8], place: u32) -> Printed
    requires { (most_bytes ≤ length out.old) × (line_room ≤ length errors.old) }
    ensures { Prints (saved_output (listed_at small_cells place)) (saved_errors (listed_at small_cells place)) out.new errors.new result }
{
    let saving = save_small(out, place);
    put_saving(errors, saving)
}

// A number beyond 32 bits is past the last place too.
fn put_large(errors: &mut [u8]) -> Printed
    requires { line_room ≤ length errors.old }
    ensures { Message (refused_line Question) errors.new result }
{
    put_saving(errors, Err(Refusal::Question))
}

fn put_small(out: &mut [u8], errors: &mut [u8], text: &[u8]) -> Printed
    requires { (most_bytes ≤ length out.old) × (line_room ≤ length errors.old) }
    ensures { Prints (small_output (parsed text.now)) (small_errors (parsed text.now)) out.new errors.new result }
{
    match parse(text) {
        Ok(place) => put_place(out, errors, place),
        Err(ParseError::Large) => put_large(errors),
        Err(ParseError::Other) => put_usage(errors),
    }
}

// The one argument, or nothing.
fn argument<E: Env>(env: &E, space: &mut [u8]) -> usize
    ensures { result ≤ length space.new }
{
    if system::argument(env, 2, &mut []).is_some() {
        return 0;
    }
    system::argument(env, 1, space).unwrap_or(0)
}

fn main(rt: HostRuntime) {
    let mut space = [0u8; LONGEST];
    let n = argument(&rt, &mut space);
    let mut out = [0u8; Cell::MOST_BYTES];
    let mut errors = [0u8; 96];
    let printed = put_small(&mut out, &mut errors, &space[..n]);
    print(&mut rt.stdout(), &mut rt.stderr(), &out, &errors, printed);
}
