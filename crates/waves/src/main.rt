// Reads a cell file on standard input and prints its listing, with a fresh table and a working table of 4,096 entries each.
// One argument, a number from 3 to 65,536, is the table's length in place of 4,096.
#![tactic(auto)]

ghost use Rattle.std.specs.Prelude.{◌≤◌, IfSome};

use listing::argument::table_length;
use listing::print::print_file;
use std::env::Env;
use std::io::Write;
use system::argument;

fn main(rt: HostRuntime) {
    let Some(size) = asked_length(&rt) else {
        let _ = rt
            .stderr()
            .write_all(b"usage: waves [table length from 3 to 65536]\n");
        return;
    };
    print_file(&mut rt.stdin(), &mut rt.stdout(), size);
}

// The table's length by the arguments: 4,096 without one, none where they name no length.
fn asked_length<E: Env>(env: &E) -> Option<usize>
    ensures { IfSome result (λ n. n ≤ 65536) }
{
    let mut space = [0u8; 64];
    let Some(n) = argument(env, 1, &mut space) else {
        return Some(4096);
    };
    if argument(env, 2, &mut []).is_some() {
        return None;
    }
    table_length(&space[..n])
}
