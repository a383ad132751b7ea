// Prints the listing of each named cell file. Arguments: a table length in entries, 3 to 65,536, then names, then another length, and so on.
#![tactic(auto)]

ghost use Rattle.std.specs.Prelude.{◌≤◌};

use listing::argument::table_length;
use listing::print::print_file;
use std::fs::File;
use std::io::Write;
use std::rt::Files;
use std::str;

fn main(rt: HostRuntime) {
    let mut size: usize = 4096;
    for number in 1..usize::MAX {
        let mut space = [0u8; 4096];
        let Some(n) = system::argument(&rt, number, &mut space) else {
            break;
        };
        size = argument(&rt, &mut rt.stdout(), &space[..n], size);
    }
}

// A number is a table length for the names after it; a name is a file whose listing is printed.
fn argument<R: Files, W: Write>(files: &R, output: &mut W, text: &[u8], size: usize) -> usize
    requires { size ≤ 65536 }
    ensures { result ≤ 65536 }
{
    if let Some(length) = table_length(text) {
        return length;
    }
    print_named(files, output, text, size);
    size
}

fn print_named<R: Files, W: Write>(files: &R, output: &mut W, name: &[u8], size: usize)
    requires { size ≤ 65536 }
{
    let _ = output.write_all(name);
    let _ = output.write_all(b" ");
    let _ = write!(output, "{size}");
    let _ = output.write_all(b"\n");
    match open(files, name) {
        Some(mut file) => print_file(&mut file, output, size),
        None => {
            let _ = output.write_all(b"no such file\n");
        }
    }
}

// The file of this name, if there is one: a path is text.
fn open<R: Files>(files: &R, name: &[u8]) -> Option<R::File> {
    let path = str::from_utf8(name).ok()?;
    File::open(files, path).ok()
}
