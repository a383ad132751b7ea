// Functions of what touches and of what is kept, as entries of a second lent table.
// Promise: an answer that did not stop gives an entry with the numbers said, in a sound extension of the table; one that did comes only where
// such an extension takes every row (specs/Grown.antt).
#![tactic(auto)]

ghost use Rattle.std.specs.Prelude.{cond, ◌<◌, ◌≤◌, eqb};
ghost use Rattle.diagram.specs.Table.{number_at};
ghost use Rattle.diagram.specs.Held.{held};
ghost use Rattle.table.specs.Holds.{Sized, Empty};
ghost use Rattle.functions.specs.Open.{Open};
ghost use Rattle.working.specs.Grown.{Grown};

pub mod lent;
pub mod link;
pub mod many;

use functions::choose::choose;
use table::Put;

// Both: `b` where `a` is 1, else 0.
pub fn both(
    letter: &mut [u32],
    low: &mut [u32],
    high: &mut [u32],
    index: &mut [u32],
    used: u32,
    k: u32,
    a: u32,
    b: u32,
) -> Put
    requires { Open k letter.old low.old high.old index.old used × (a < used) × (b < used) }
    ensures { Grown k (held letter.old low.old high.old used) (λ p. cond (eqb (number_at k (held letter.old low.old high.old used) a p) 1) (number_at k (held letter.old low.old high.old used) b p) 0) letter.new low.new high.new index.new result }
{
    choose(letter, low, high, index, used, k, a, b, 0, k)
}

// Either: 1 where `a` is 1, else `b`.
pub fn either(
    letter: &mut [u32],
    low: &mut [u32],
    high: &mut [u32],
    index: &mut [u32],
    used: u32,
    k: u32,
    a: u32,
    b: u32,
) -> Put
    requires { Open k letter.old low.old high.old index.old used × (a < used) × (b < used) }
    ensures { Grown k (held letter.old low.old high.old used) (λ p. cond (eqb (number_at k (held letter.old low.old high.old used) a p) 1) 1 (number_at k (held letter.old low.old high.old used) b p)) letter.new low.new high.new index.new result }
{
    choose(letter, low, high, index, used, k, a, 1, b, k)
}

// The first but not the second: 0 where `b` is 1, else `a`.
pub fn without(
    letter: &mut [u32],
    low: &mut [u32],
    high: &mut [u32],
    index: &mut [u32],
    used: u32,
    k: u32,
    a: u32,
    b: u32,
) -> Put
    requires { Open k letter.old low.old high.old index.old used × (a < used) × (b < used) }
    ensures { Grown k (held letter.old low.old high.old used) (λ p. cond (eqb (number_at k (held letter.old low.old high.old used) b p) 1) 0 (number_at k (held letter.old low.old high.old used) a p)) letter.new low.new high.new index.new result }
{
    choose(letter, low, high, index, used, k, b, 0, a, k)
}

// The opposite: 0 where `a` is 1, else 1.
pub fn opposite(
    letter: &mut [u32],
    low: &mut [u32],
    high: &mut [u32],
    index: &mut [u32],
    used: u32,
    k: u32,
    a: u32,
) -> Put
    requires { Open k letter.old low.old high.old index.old used × (a < used) }
    ensures { Grown k (held letter.old low.old high.old used) (λ p. cond (eqb (number_at k (held letter.old low.old high.old used) a p) 1) 0 1) letter.new low.new high.new index.new result }
{
    choose(letter, low, high, index, used, k, a, 0, 1, k)
}

// Zeros in an index.
fn blank(index: &mut [u32])
    ensures { Empty index.new }
{
    table::clear_column(index, 0);
}

// A fresh working table, whatever the columns and the index held.
pub fn begin(letter: &mut [u32], low: &mut [u32], high: &mut [u32], index: &mut [u32], k: u32)
    requires { Sized letter.old low.old high.old index.old × (k ≤ 12) }
    ensures { Open k letter.new low.new high.new index.new 3 }
{
    table::renew(letter, low, high);
    blank(index);
    table::sound(k, letter, low, high, 3, index);
}
