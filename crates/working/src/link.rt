// The matrix of joined-functions after a transistor between two inner nodes: 24 by 24 entries, by value.
ghost use Rattle.std.specs.Prelude.{◌≡◌, true, false, ℕ, ◌<◌, get_or};
ghost use Rattle.diagram.specs.Table.{number_at};
ghost use Rattle.diagram.specs.Held.{held};
ghost use Rattle.table.specs.Stop.{stopped};
ghost use Rattle.functions.specs.Open.{Open};
ghost use Rattle.working.specs.Grown.{Crowded, Grown};
ghost use Rattle.working.specs.Many.{AllUsed, Filled, cell, Matrixed, also, linked_number};

use crate::{both, either};
use table::{Put, Stop, stopped};

// A row of the matrix, unless working it out stopped.
#[derive(Clone, Copy)]
pub struct Row {
    pub stop: Stop,
    pub used: u32,
    pub row: [u32; 24],
}

// `z`, or where `a` and `b` are 1.
fn also_both(
    letter: &mut [u32],
    low: &mut [u32],
    high: &mut [u32],
    index: &mut [u32],
    used: u32,
    k: u32,
    z: u32,
    a: u32,
    b: u32,
) -> Put
    requires { Open k letter.old low.old high.old index.old used × (z < used) × (a < used) × (b < used) }
    ensures { Grown k (held letter.old low.old high.old used) (λ p. also (number_at k (held letter.old low.old high.old used) z p) (number_at k (held letter.old low.old high.old used) a p) (number_at k (held letter.old low.old high.old used) b p)) letter.new low.new high.new index.new result }
{
    if a == 0 {
        return Put {
            stop: Stop::Going,
            entry: z,
            used,
        };
    }
    if b == 0 {
        return Put {
            stop: Stop::Going,
            entry: z,
            used,
        };
    }
    let m = both(letter, low, high, index, used, k, a, b);
    let why = m.stop;
    if stopped(why) {
        return m;
    }
    either(letter, low, high, index, m.used, k, m.entry, z)
}

// One cell: `xy`, or by way of a and b, or of b and a.
fn link_cell(
    letter: &mut [u32],
    low: &mut [u32],
    high: &mut [u32],
    index: &mut [u32],
    used: u32,
    k: u32,
    xy: u32,
    xa: u32,
    by: u32,
    xb: u32,
    ay: u32,
) -> Put
    requires { Open k letter.old low.old high.old index.old used × (xy < used) × (xa < used) × (by < used) × (xb < used) × (ay < used) }
    ensures { Grown k (held letter.old low.old high.old used) (λ p. also (also (number_at k (held letter.old low.old high.old used) xy p) (number_at k (held letter.old low.old high.old used) xb p) (number_at k (held letter.old low.old high.old used) ay p)) (number_at k (held letter.old low.old high.old used) xa p) (number_at k (held letter.old low.old high.old used) by p)) letter.new low.new high.new index.new result }
{
    let m = also_both(letter, low, high, index, used, k, xy, xb, ay);
    let why = m.stop;
    if stopped(why) {
        return m;
    }
    also_both(letter, low, high, index, m.used, k, m.entry, xa, by)
}

// A row, cell by cell: `xa` and `xb` are what its node has with the ends, `a` and `b` the ends' rows.
fn link_cells(
    letter: &mut [u32],
    low: &mut [u32],
    high: &mut [u32],
    index: &mut [u32],
    used: u32,
    k: u32,
    row: [u32; 24],
    xa: u32,
    xb: u32,
    a: [u32; 24],
    b: [u32; 24],
) -> Row
    requires { Open k letter.old low.old high.old index.old used × (xa < used) × (xb < used) × AllUsed 24 row used × AllUsed 24 a used × AllUsed 24 b used }
    ensures { (stopped result.stop ≡ false → Filled 24 k (held letter.old low.old high.old used) (λ y p. also (also (number_at k (held letter.old low.old high.old used) (get_or row y 0) p) (number_at k (held letter.old low.old high.old used) xb p) (number_at k (held letter.old low.old high.old used) (get_or a y 0) p)) (number_at k (held letter.old low.old high.old used) xa p) (number_at k (held letter.old low.old high.old used) (get_or b y 0) p)) letter.new low.new high.new index.new result.used result.row) × (stopped result.stop ≡ true → Crowded k (held letter.old low.old high.old used) letter.new low.new high.new index.new) }
{
    let mut out = row;
    let mut now = used;
    for y in 0..24 {
        let p = link_cell(letter, low, high, index, now, k, row[y], xa, b[y], xb, a[y]);
        let why = p.stop;
        if stopped(why) {
            return Row {
                stop: why,
                used: now,
                row: out,
            };
        }
        out[y] = p.entry;
        now = p.used;
    }
    Row {
        stop: Stop::Going,
        used: now,
        row: out,
    }
}

// A row after a transistor between `a` and `b`, whose own rows come along. A row that is nowhere joined with an end stays.
fn link_row(
    letter: &mut [u32],
    low: &mut [u32],
    high: &mut [u32],
    index: &mut [u32],
    used: u32,
    k: u32,
    kept: u32,
    a: usize,
    b: usize,
    row: [u32; 24],
    first: [u32; 24],
    second: [u32; 24],
) -> Row
    requires { Open k letter.old low.old high.old index.old used × (kept < used) × (a < 24) × (b < 24) × AllUsed 24 row used × AllUsed 24 first used × AllUsed 24 second used }
    ensures { (stopped result.stop ≡ false → Filled 24 k (held letter.old low.old high.old used) (λ y p. linked_number (number_at k (held letter.old low.old high.old used) kept p) (number_at k (held letter.old low.old high.old used) (get_or row y 0) p) (number_at k (held letter.old low.old high.old used) (get_or row a 0) p) (number_at k (held letter.old low.old high.old used) (get_or second y 0) p) (number_at k (held letter.old low.old high.old used) (get_or row b 0) p) (number_at k (held letter.old low.old high.old used) (get_or first y 0) p)) letter.new low.new high.new index.new result.used result.row) × (stopped result.stop ≡ true → Crowded k (held letter.old low.old high.old used) letter.new low.new high.new index.new) }
{
    let xa = row[a];
    let xb = row[b];
    if (xa == 0) & (xb == 0) {
        return Row {
            stop: Stop::Going,
            used,
            row,
        };
    }
    let p = both(letter, low, high, index, used, k, kept, xa);
    let why = p.stop;
    if stopped(why) {
        return Row {
            stop: why,
            used,
            row,
        };
    }
    let q = both(letter, low, high, index, p.used, k, kept, xb);
    let why = q.stop;
    if stopped(why) {
        return Row {
            stop: why,
            used,
            row,
        };
    }
    link_cells(
        letter, low, high, index, q.used, k, row, p.entry, q.entry, first, second,
    )
}

// The matrix after a transistor between `a` and `b`. No room: `used` becomes 0.
pub fn link(
    letter: &mut [u32],
    low: &mut [u32],
    high: &mut [u32],
    index: &mut [u32],
    used: &mut u32,
    k: u32,
    kept: u32,
    a: usize,
    b: usize,
    joined: [[u32; 24]; 24],
) -> [[u32; 24]; 24]
    requires { Open k letter.old low.old high.old index.old used.old × (kept < used.old) × (a < 24) × (b < 24) × ((x y : ℕ) → x < 24 → y < 24 → cell joined x y < used.old) }
    ensures { ((used.new ≡ 0 → ⊥) → Matrixed k (held letter.old low.old high.old used.old) (λ x y p. linked_number (number_at k (held letter.old low.old high.old used.old) kept p) (number_at k (held letter.old low.old high.old used.old) (cell joined x y) p) (number_at k (held letter.old low.old high.old used.old) (cell joined x a) p) (number_at k (held letter.old low.old high.old used.old) (cell joined b y) p) (number_at k (held letter.old low.old high.old used.old) (cell joined x b) p) (number_at k (held letter.old low.old high.old used.old) (cell joined a y) p)) letter.new low.new high.new index.new used.new result) × (used.new ≡ 0 → Crowded k (held letter.old low.old high.old used.old) letter.new low.new high.new index.new) }
{
    let first = joined[a];
    let second = joined[b];
    let mut out = joined;
    for x in 0..24 {
        let r = link_row(
            letter, low, high, index, *used, k, kept, a, b, out[x], first, second,
        );
        let why = r.stop;
        if stopped(why) {
            *used = 0;
            return out;
        }
        let row = r.row;
        out[x] = row;
        *used = r.used;
    }
    out
}
