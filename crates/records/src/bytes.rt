// Numbers of the file, and its header.
ghost use Rattle.std.specs.Prelude.{◌≡◌, ◌+◌, ◌<◌, ◌≤◌, length};
ghost use Rattle.format.specs.File.{record_at, half_at, word_at, zero_bytes, file_header};

use format::Header;
use units::Picoseconds;

pub fn half_at(file: &[u8], i: usize) -> u32
    requires { i + 1 < length file.now }
    ensures { result ≡ half_at file.now i }
{
    u32::from(u16::from_le_bytes([file[i], file[i + 1]]))
}

pub fn word_at(file: &[u8], i: usize) -> u32
    requires { i + 3 < length file.now }
    ensures { result ≡ word_at file.now i }
{
    u32::from_le_bytes([file[i], file[i + 1], file[i + 2], file[i + 3]])
}

// Whether the n bytes from i on are zero.
pub fn zero_bytes(file: &[u8], n: usize, i: usize) -> bool
    requires { i + n ≤ length file.now }
    ensures { result ≡ zero_bytes file.now n i }
{
    file[i..i + n].iter().all(|byte| *byte == 0)
}

// Where record r starts.
pub fn record_at(r: u32) -> usize
    ensures { result ≡ record_at r }
{
    16 * (r as usize)
}

pub fn file_header(file: &[u8]) -> Header
    requires { 16 ≤ length file.now }
    ensures { result ≡ file_header file.now }
{
    Header {
        nodes: u32::from(file[0]),
        transistors: u32::from(file[1]),
        entries: u32::from(file[2]),
        letters: u32::from(file[3]),
        horizon: Picoseconds(u64::from(word_at(file, 4))),
    }
}
