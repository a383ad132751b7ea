// Which roots matter to a node's piece.
ghost use Rattle.std.specs.Prelude.{◌≡◌, ◌<◌};
ghost use Rattle.plain.specs.Ready.{Net};
ghost use Rattle.descent.specs.Piece.{is_touching, matters as mattersOf};

use crate::KEPT;
use crate::piece::INSIDE;
use net::{FIRST, SECOND, TRANSISTORS, roots};
use plain::reads::read;

// The first node that is no rail, the end of the kept transistors, where seeds begin, and the end of these.
const NODE: u32 = 2;

const LEAF: u32 = roots::LEAF as u32;

const PENDING: u32 = roots::PENDING as u32;

// Whether transistor i touches the piece.
fn touching(net: &[u32], marks: &[u32; 26], i: u32) -> bool
    requires net { Net net.now }
    requires i_bound { i < 64 }
    ensures { result ≡ is_touching net.now marks.now i }
{
    if read(net, TRANSISTORS) <= i {
        return false;
    }
    let first = read(net, FIRST + i as usize) as usize;
    let second = read(net, SECOND + i as usize) as usize;
    if marks[first] == INSIDE {
        return true;
    }
    marks[second] == INSIDE
}

// Whether root j matters; of the seeds `sole` alone, where it is not 0.
pub fn matters(net: &[u32], marks: &[u32; 26], sole: u32, j: u32) -> bool
    requires { Net net.now }
    ensures { result ≡ mattersOf net.now marks.now sole j }
{
    if j < KEPT {
        if j < NODE {
            return true;
        }
        let at = j as usize;
        return marks[at] != 0;
    }
    if j < LEAF {
        return touching(net, marks, j - KEPT);
    }
    if j < PENDING {
        let m = j - LEAF;
        if sole != 0 {
            return m == sole;
        }
        let at = m as usize;
        return marks[at] == INSIDE;
    }
    true
}
