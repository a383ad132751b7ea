// The piece of a node: a search over transistors that are not known to be off, each node visited once.
ghost use Rattle.std.specs.Prelude.{◌≡◌, true, false, cond, ◌+◌, ◌<◌, get_or, set};
ghost use Rattle.net.specs.Net.{transistors_place};
ghost use Rattle.plain.specs.Ready.{Net};
ghost use Rattle.descent.specs.Piece.{is_in, is_end_of, Crossed, AllCrossed, Found, Searched, StaysIn, Piece};
ghost use Rattle.descent.specs.Descend.{Inner};

use crate::KEPT;
use net::roots::ROOTS;
use plain::reads::{arm_at, degree_of, far_end, is_driven};

// Marks of nodes: in the piece, or a driven end beside it.
pub const INSIDE: u32 = 1;

const EDGE: u32 = 2;

// Marks an inner node and puts it behind the nodes found so far, unless it is one of them.
fn note(marks: &mut [u32; 26], found: &mut [u32; 26], count: u32, y: u32) -> u32
    requires y_bound { y < 26 }
    requires count_bound { is_in marks.old y ≡ false → count < 26 }
    ensures value { result ≡ cond (is_in marks.old y) count (count + 1) }
    ensures marks_after { marks.new ≡ cond (is_in marks.old y) marks.old (set marks.old y 1) }
    ensures found_after { found.new ≡ cond (is_in marks.old y) found.old (set found.old count y) }
{
    let at = y as usize;
    if marks[at] == INSIDE {
        return count;
    }
    marks[at] = INSIDE;
    let end = count as usize;
    found[end] = y;
    count + 1
}

// Crosses transistor i from node x: its far end is found, or marked where it is driven. Gives the count of found nodes.
fn cross(
    net: &[u32],
    roots: &[u32; ROOTS],
    marks: &mut [u32; 26],
    found: &mut [u32; 26],
    count: u32,
    x: u32,
    i: u32,
) -> u32
    requires net { Net net.now }
    requires i_bound { (i < get_or net.now transistors_place 0) × (is_end_of net.now i x ≡ true) × (is_in marks.old x ≡ true) }
    requires found { Found net.now marks.old found.old count }
    ensures searched { Searched net.now marks.old found.old count marks.new found.new result }
    ensures crossed { Crossed net.now roots.now marks.new x i × StaysIn net.now roots.now marks.old marks.new }
{
    let at = (KEPT + i) as usize;
    if roots[at] == 0 {
        return count;
    }
    let y = far_end(net, i, x);
    if is_driven(net, y) {
        let end = y as usize;
        marks[end] = EDGE;
        return count;
    }
    note(marks, found, count, y)
}

// Crosses all arms of node x.
fn spread(
    net: &[u32],
    roots: &[u32; ROOTS],
    marks: &mut [u32; 26],
    found: &mut [u32; 26],
    count: u32,
    x: u32,
) -> u32
    requires net { Net net.now }
    requires x_value { is_in marks.old x ≡ true }
    requires found { Found net.now marks.old found.old count }
    ensures searched { Searched net.now marks.old found.old count marks.new found.new result }
    ensures all_crossed { AllCrossed net.now roots.now marks.new x × StaysIn net.now roots.now marks.old marks.new }
{
    let degree = degree_of(net, x);
    let mut total = count;
    for k in 0..degree {
        let i = arm_at(net, x, k);
        total = cross(net, roots, marks, found, total, x, i);
    }
    total
}

// The marks of node n's piece and of the driven ends beside it.
pub fn piece(net: &[u32], roots: &[u32; ROOTS], n: u32) -> [u32; 26]
    requires { Inner net.now n }
    ensures { Piece net.now roots.now n result }
{
    let mut marks: [u32; 26] = [0; 26];
    let mut found: [u32; 26] = [0; 26];
    let mut count = note(&mut marks, &mut found, 0, n);
    let mut head: u32 = 0;
    // A `while`: what is found grows as it is gone through.
    while head < count {
        let at = head as usize;
        let x = found[at];
        count = spread(net, roots, &mut marks, &mut found, count, x);
        head += 1;
    }
    marks
}
