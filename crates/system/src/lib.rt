// What the programs take from outside: the front of a stream, as much of it as a buffer holds, and their arguments.
// Promise: what stands at the front of the buffer is what the stream gave, in its order; a read that fails ends it as the stream's end does.
#![tactic(auto)]

ghost use Rattle.std.specs.Prelude.{◌≤◌, length, take, IfSome};
ghost use Rattle.std.specs.Io.KnownBytes.{Consumes};

use std::env::{Env, FillError};
use std::io::Read;

// Reads until the buffer is full, the stream ends or a read fails; how many bytes stand at the front of the buffer.
pub fn read_full<R: Read>(stream: &mut R, buffer: &mut [u8]) -> usize
    ensures fits { result ≤ length buffer.new }
    ensures bytes { Consumes (R.remaining stream.old) (R.remaining stream.new) (take result buffer.new) }
{
    let mut done = 0;
    while done < buffer.len() {
        match stream.read(&mut buffer[done..]) {
            Ok(0) | Err(_) => break,
            Ok(n) => done += n,
        }
    }
    done
}

// An argument's bytes at the front of the buffer, and how many they are: 0 where it is longer than the buffer. None where there is no such
// argument; the first after the program's name is 1.
pub fn argument<E: Env>(env: &E, number: usize, buffer: &mut [u8]) -> Option<usize>
    ensures { IfSome result (λ n. n ≤ length buffer.new) }
{
    match env.arg(number, buffer) {
        Ok(n) => Some(n),
        Err(FillError::TooLong) => Some(0),
        Err(FillError::NotPresent) => None,
    }
}
