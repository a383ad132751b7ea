// The roots that are not entry 0, by a list of their places: what is left of them, their least letter, their parts, their numbers.
ghost use Rattle.std.specs.Prelude.{◌≡◌, true, false, cond, ℕ, ◌+◌, ◌<◌, length, get_or, set, eqb};
ghost use Rattle.diagram.specs.Table.{terminal_letter};
ghost use Rattle.net.specs.Net.{net_circuit};
ghost use Rattle.net.specs.Roots.{roots_length};
ghost use Rattle.plain.specs.Ready.{Net};
ghost use Rattle.descent.specs.Piece.{matters as mattersOf, sole_seed, Selected, Narrowed};
ghost use Rattle.descent.specs.Live.{Live};
ghost use Rattle.descent.specs.Descend.{Inner, Entries, Least, HalfOf, NumbersOf, NoSeed};

use crate::PLACES;
use crate::letters::{entry_of, part};
use crate::mask::matters;
use crate::piece::piece;
use functions::numbers::TERMINAL;
use net::roots::{PENDING, ROOTS, SEEDS};

// All places.
pub fn all_places() -> [u32; ROOTS]
    ensures { (length result ≡ roots_length) × ((i : ℕ) → i < roots_length → get_or result i 0 ≡ i) }
{
    let mut out: [u32; ROOTS] = [0; ROOTS];
    for place in 0..PLACES {
        out[place as usize] = place;
    }
    out
}

// Root j where it matters, else entry 0.
fn kept_root(net: &[u32], marks: &[u32; 26], sole: u32, j: u32, root: u32) -> u32
    requires { Net net.now }
    ensures { result ≡ cond (mattersOf net.now marks.now sole j) root 0 }
{
    if root == 0 {
        return 0;
    }
    if matters(net, marks, sole, j) {
        return root;
    }
    0
}

// Puts place j behind the places so far, unless its root is entry 0.
fn note_place(list: &mut [u32; ROOTS], count: u32, j: u32, root: u32) -> u32
    requires { count < roots_length }
    ensures value { result ≡ cond (eqb root 0) count (count + 1) }
    ensures list_after { list.new ≡ cond (eqb root 0) list.old (set list.old count j) }
{
    if root == 0 {
        return count;
    }
    let end = count as usize;
    list[end] = j;
    count + 1
}

// The roots that matter to a piece, and the list of their places. Gives their count.
fn keep(
    net: &[u32],
    roots: &[u32; ROOTS],
    marks: &[u32; 26],
    sole: u32,
    live: &[u32; ROOTS],
    count: u32,
    out: &mut [u32; ROOTS],
    list: &mut [u32; ROOTS],
) -> u32
    requires net { Net net.now }
    requires live { Live roots.now live.now count × Live out.old live.now count × (length list.old ≡ roots_length) }
    ensures selected { Selected net.now roots.now marks.now sole out.new }
    ensures live_2 { Live out.new list.new result }
{
    let mut total: u32 = 0;
    for place in &live[..count as usize] {
        let at = *place as usize;
        let root = kept_root(net, marks, sole, *place, roots[at]);
        out[at] = root;
        total = note_place(list, total, *place, root);
    }
    total
}

// Whether a listed root is entry 0. Nothing hangs on it but whether narrowing is worth its work.
fn some_zero(roots: &[u32; ROOTS], live: &[u32; ROOTS], count: u32) -> bool
    requires { Live roots.now live.now count }
{
    live[..count as usize]
        .iter()
        .any(|place| roots[*place as usize] == 0)
}

// Node n, where it is a seed at every pattern: no other seed matters to it then. Else 0.
fn sole_seed(roots: &[u32; ROOTS], n: u32) -> u32
    requires { n < 26 }
    ensures { result ≡ sole_seed roots.now n }
{
    if roots[SEEDS + n as usize] == 1 {
        return n;
    }
    0
}

// The same roots and the same list, at the listed places alone.
fn copy(
    roots: &[u32; ROOTS],
    live: &[u32; ROOTS],
    count: u32,
    out: &mut [u32; ROOTS],
    list: &mut [u32; ROOTS],
)
    requires { Live roots.now live.now count × Live out.old live.now count × (length list.old ≡ roots_length) }
    ensures { (out.new ≡ roots.now) × Live out.new list.new count }
{
    let listed = count as usize;
    for place in &live[..listed] {
        let at = *place as usize;
        out[at] = roots[at];
    }
    list[..listed].copy_from_slice(&live[..listed]);
}

// The roots that matter to node n, and the list of their places. Gives their count. Where none has become entry 0 since they were listed,
// they are the same.
pub fn narrow(
    net: &[u32],
    n: u32,
    roots: &[u32; ROOTS],
    live: &[u32; ROOTS],
    count: u32,
    out: &mut [u32; ROOTS],
    list: &mut [u32; ROOTS],
) -> u32
    requires inner { Inner net.now n }
    requires live { Live roots.now live.now count × Live out.old live.now count × (length list.old ≡ roots_length) }
    ensures narrowed { Narrowed (net_circuit net.now) n roots.now out.new }
    ensures live_2 { Live out.new list.new result }
{
    if !some_zero(roots, live, count) {
        copy(roots, live, count, out, list);
        return count;
    }
    let marks = piece(net, roots, n);
    let sole = sole_seed(roots, n);
    keep(net, roots, &marks, sole, live, count, out, list)
}

// Whether a listed root of a seed is not entry 0. Seeds stand near the end of a list.
pub fn some_seed(roots: &[u32; ROOTS], live: &[u32; ROOTS], count: u32) -> bool
    requires { Live roots.now live.now count }
    ensures { (result ≡ false → NoSeed roots.now) × (result ≡ true → NoSeed roots.now → ⊥) }
{
    for k in (0..count as usize).rev() {
        let at = live[k] as usize;
        if (at >= SEEDS) & (at < PENDING) & (roots[at] != 0) {
            return true;
        }
    }
    false
}

// The least letter of the roots; a terminal's where all are terminals.
pub fn least_live(letter: &[u32], roots: &[u32; ROOTS], live: &[u32; ROOTS], count: u32) -> u32
    requires entries { Entries letter.now roots.now × (get_or letter.now 0 0 ≡ terminal_letter) }
    requires live { Live roots.now live.now count }
    ensures { Least letter.now roots.now result }
{
    let mut m = TERMINAL;
    for place in &live[..count as usize] {
        m = m.min(entry_of(letter, roots[*place as usize]));
    }
    m
}

// The low or high parts of the roots at letter m, which is not entry 0's.
pub fn halve(
    letter: &[u32],
    side: &[u32],
    roots: &[u32; ROOTS],
    live: &[u32; ROOTS],
    count: u32,
    m: u32,
    out: &mut [u32; ROOTS],
)
    requires entries { Entries letter.now roots.now × (length side.now ≡ length letter.now) × (get_or letter.now 0 0 ≡ m → ⊥) }
    requires live { Live roots.now live.now count × Live out.old live.now count }
    ensures { HalfOf letter.now side.now roots.now m out.new }
{
    for place in &live[..count as usize] {
        let at = *place as usize;
        out[at] = part(letter, side, m, roots[at]);
    }
}

// The numbers of roots that are terminals.
pub fn live_numbers(
    low: &[u32],
    roots: &[u32; ROOTS],
    live: &[u32; ROOTS],
    count: u32,
) -> [u32; ROOTS]
    requires entries { Entries low.now roots.now × (get_or low.now 0 0 ≡ 0) }
    requires live { Live roots.now live.now count }
    ensures { NumbersOf low.now roots.now result }
{
    let mut out: [u32; ROOTS] = [0; ROOTS];
    for place in &live[..count as usize] {
        let at = *place as usize;
        out[at] = entry_of(low, roots[at]);
    }
    out
}
