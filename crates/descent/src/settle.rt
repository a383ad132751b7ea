// What the numbers of one pattern settle: the one-pattern rule where the node's piece holds a seed, else the pending change.
ghost use Rattle.std.specs.Prelude.{◌≡◌};
ghost use Rattle.net.specs.Net.{net_circuit};
ghost use Rattle.descent.specs.Settle.{is_reached, settled_at};
ghost use Rattle.descent.specs.Piece.{Piece};
ghost use Rattle.descent.specs.Descend.{Inner, Settleable};

use crate::piece::{INSIDE, piece};
use net::roots::{LEAF, PENDING, ROOTS, SEEDS};
use plain::settle::{moved, pending_after};

// Whether one of the marked nodes is a seed.
fn holds_seed(net: &[u32], numbers: &[u32; ROOTS], marks: &[u32; 26], n: u32) -> bool
    requires { Inner net.now n × Piece net.now numbers.now n marks.now }
    ensures { result ≡ is_reached (net_circuit net.now) n numbers.now }
{
    for m in 2..26 {
        if (marks[m] == INSIDE) & (numbers[SEEDS + m] == 1) {
            return true;
        }
    }
    false
}

// Whether node n's piece holds a seed; n itself is looked at first.
pub fn reached(net: &[u32], numbers: &[u32; ROOTS], n: u32) -> bool
    requires { Inner net.now n }
    ensures { result ≡ is_reached (net_circuit net.now) n numbers.now }
{
    if numbers[SEEDS + n as usize] == 1 {
        return true;
    }
    let marks = piece(net, numbers, n);
    holds_seed(net, numbers, &marks, n)
}

// The next change of node n by the numbers of a pattern; `moves` where its piece holds a seed.
pub fn settled(net: &[u32], numbers: &[u32], moves: bool, time: u32, n: u32) -> u32
    requires { Settleable net.now n numbers.now × (moves ≡ is_reached (net_circuit net.now) n numbers.now) }
    ensures { result ≡ settled_at (net_circuit net.now) time n numbers.now }
{
    let pending = numbers[PENDING];
    if !moves {
        return pending_after(time, pending);
    }
    moved(net, &numbers[..LEAF], time, pending, n)
}
