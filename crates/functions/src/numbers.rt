// Numbers that the operations share: never, a terminal's letter, the least of two, and a bit turned.
ghost use Rattle.std.specs.Prelude.{◌≡◌, min};
ghost use Rattle.diagram.specs.Operation.{flip as flipOf};

pub const NEVER: u32 = 4294967295;

// The letter of a terminal.
pub const TERMINAL: u32 = 4294967295;

pub fn least(x: u32, y: u32) -> u32
    ensures { result ≡ min x y }
{
    if x < y { x } else { y }
}

// A bit turned where the other number is n.
pub fn flip(n: u32, bit: u32, other: u32) -> u32
    ensures { result ≡ flipOf n bit other }
{
    if other != n {
        return bit;
    }
    if bit == 0 {
        return 1;
    }
    0
}
