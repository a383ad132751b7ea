// What the schedule of a column puts at a node.
ghost use Rattle.net.specs.Net.{letters_place, at as at_place, net_circuit};
ghost use Rattle.net.specs.Laid.{Laid};
ghost use Rattle.net.specs.Due.{Due};

use crate::quantities::entry_time;

// No source byte is as large.
pub const NONE: u32 = 256;

// The source that input n takes at `time`, or none.
pub fn source_at(net: &[u32], time: u32, n: u32) -> u32
    requires { Laid (net_circuit net.now) net.now }
    ensures { Due (at_place net.now letters_place) (net_circuit net.now).schedule time n result }
{
    for i in 0..net[crate::ENTRIES] as usize {
        let at = entry_time(net, i);
        if at.0 == time as u64 && net[crate::INPUT + i] == n {
            return net[crate::SOURCE + i];
        }
    }
    NONE
}
