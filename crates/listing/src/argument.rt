// The table length that an argument names.
ghost use Rattle.std.specs.Prelude.{◌≡◌};
ghost use Rattle.listing.specs.Argument.{length_of, LengthAs};

use text::parse;

const LEAST: u32 = 3;

const MOST: u32 = 65536;

// A number from 3 to 65,536; no other text names a length.
pub fn table_length(text: &[u8]) -> Option<usize>
    ensures { LengthAs text.now result }
{
    match parse(text) {
        Ok(n) => in_range(n),
        Err(_) => None,
    }
}

fn in_range(n: u32) -> Option<usize>
    ensures { result ≡ length_of n }
{
    if (LEAST..=MOST).contains(&n) {
        Some(n as usize)
    } else {
        None
    }
}
