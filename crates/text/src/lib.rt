// Words and decimal numbers as bytes: written into a lent buffer from a place on, and a number read from a text.
// Promise: each put function leaves the buffer with its bytes written at the place (specs/Written.antt), every other byte as it was, and answers where it ended.
// Lines of the programs and saved files are made of these; knows nothing of cells, and reads and prints nothing.
#![tactic(auto)]

ghost use Rattle.std.specs.Prelude.{◌≡◌, [], ◌∷◌, ◌+◌, ◌≤◌, length};
ghost use Rattle.text.specs.Decimal.{decimal, spaced, ended};
ghost use Rattle.text.specs.Written.{Wrote};
ghost use Rattle.text.specs.Number.{parsed, with_digit};

pub fn put_byte(out: &mut [u8], at: usize, byte: u8) -> usize
    requires { at + length (byte ∷ []) ≤ length out.old }
    ensures { Wrote out.old out.new at (byte ∷ []) result }
{
    out[at] = byte;
    at + 1
}

pub fn put_bytes(out: &mut [u8], at: usize, bytes: &[u8]) -> usize
    requires { at + length bytes.now ≤ length out.old }
    ensures { Wrote out.old out.new at bytes.now result }
{
    let end = at + bytes.len();
    out[at..end].copy_from_slice(bytes);
    end
}

// The digits of a number of 64 bits, the most significant first.
pub fn put_decimal_u64(out: &mut [u8], at: usize, n: u64) -> usize
    requires { at + length (decimal n) ≤ length out.old }
    ensures { Wrote out.old out.new at (decimal n) result }
{
    if n < 10 {
        return put_byte(out, at, 48 + n as u8);
    }
    let end = put_decimal_u64(out, at, n / 10);
    put_byte(out, end, 48 + (n % 10) as u8)
}

pub fn put_decimal(out: &mut [u8], at: usize, n: u32) -> usize
    requires { at + length (decimal n) ≤ length out.old }
    ensures { Wrote out.old out.new at (decimal n) result }
{
    put_decimal_u64(out, at, n as u64)
}

// A number and a space.
pub fn put_spaced(out: &mut [u8], at: usize, n: u32) -> usize
    requires { at + length (spaced n) ≤ length out.old }
    ensures { Wrote out.old out.new at (spaced n) result }
{
    let end = put_decimal(out, at, n);
    put_byte(out, end, b' ')
}

// A number and the end of its line.
pub fn put_ended(out: &mut [u8], at: usize, n: u32) -> usize
    requires { at + length (ended n) ≤ length out.old }
    ensures { Wrote out.old out.new at (ended n) result }
{
    let end = put_decimal(out, at, n);
    put_byte(out, end, b'\n')
}

// Why a text is no number within 32 bits: it is a larger one, or another text.
#[derive(Clone, Copy, Debug, PartialEq, Eq)]
pub enum ParseError {
    Large,
    Other,
}

// A value with a digit behind it. One that is beyond 32 bits already stays as it is.
fn with_digit(value: u64, byte: u8) -> u64
    requires { (48 ≤ byte) × (byte ≤ 57) }
    ensures { result ≡ with_digit value byte }
{
    if 4294967295 < value {
        return value;
    }
    value * 10 + (byte - 48) as u64
}

pub fn parse(text: &[u8]) -> Result<u32, ParseError>
    ensures { result ≡ parsed text.now }
{
    if text.is_empty() {
        return Err(ParseError::Other);
    }
    let mut value: u64 = 0;
    for byte in text {
        if !byte.is_ascii_digit() {
            return Err(ParseError::Other);
        }
        value = with_digit(value, *byte);
    }
    u32::try_from(value).or(Err(ParseError::Large))
}
