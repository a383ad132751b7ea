// Roots and their letters: the least letter, the parts at a letter, and the numbers of terminals.
ghost use Rattle.std.specs.Prelude.{◌≡◌, cond, ◌<◌, length, get_or, eqb};
ghost use Rattle.descent.specs.Descend.{Entries, Least, HalfOf, NumbersOf};

use functions::numbers::TERMINAL;
use net::roots::ROOTS;

// A column's number of entry e.
pub fn entry_of(column: &[u32], e: u32) -> u32
    requires { e < length column.now }
    ensures { result ≡ get_or column.now e 0 }
{
    column[e as usize]
}

// The least letter of the roots; a terminal's where all are terminals.
pub fn least_letter(letter: &[u32], roots: &[u32; ROOTS]) -> u32
    requires { Entries letter.now roots.now }
    ensures { Least letter.now roots.now result }
{
    let mut m = TERMINAL;
    for root in roots {
        m = m.min(entry_of(letter, *root));
    }
    m
}

// The part of entry e at letter m, by a column of parts.
pub fn part(letter: &[u32], side: &[u32], m: u32, e: u32) -> u32
    requires { (e < length letter.now) × (length side.now ≡ length letter.now) }
    ensures { result ≡ cond (eqb (get_or letter.now e 0) m) (get_or side.now e 0) e }
{
    let at = e as usize;
    if letter[at] == m {
        return side[at];
    }
    e
}

// The low or high parts of all roots at letter m.
pub fn halves(letter: &[u32], side: &[u32], roots: &[u32; ROOTS], m: u32) -> [u32; ROOTS]
    requires { Entries letter.now roots.now × (length side.now ≡ length letter.now) }
    ensures { HalfOf letter.now side.now roots.now m result }
{
    let mut out: [u32; ROOTS] = [0; ROOTS];
    for (j, root) in roots.iter().enumerate() {
        out[j] = part(letter, side, m, *root);
    }
    out
}

// The numbers of roots that are terminals.
pub fn leaf_numbers(low: &[u32], roots: &[u32; ROOTS]) -> [u32; ROOTS]
    requires { Entries low.now roots.now }
    ensures { NumbersOf low.now roots.now result }
{
    let mut out: [u32; ROOTS] = [0; ROOTS];
    for (j, root) in roots.iter().enumerate() {
        out[j] = entry_of(low, *root);
    }
    out
}
