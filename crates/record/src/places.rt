// What is read off the cell's flat column: which node records are inputs, and the times of the schedule.
ghost use Rattle.std.specs.Prelude.{◌≡◌, not, ◌||◌, ◌<◌, ◌^◌, eqb};
ghost use Rattle.format.specs.Legal.{input};
ghost use Rattle.rules.specs.Run.{never_entry};
ghost use Rattle.lists.specs.Tests.{below};
ghost use Rattle.net.specs.Net.{nodes_place, at, net_circuit};
ghost use Rattle.net.specs.Laid.{Laid};
ghost use Rattle.record.specs.Numbers.{rests_at, after_now, scheduled_after};

use functions::numbers;
use net::quantities::entry_time;
use units::Picoseconds;

const INPUT: u32 = 1;

const NEVER_ENTRY: u32 = 2;

// Whether a node record of a role may have this entry for its next change.
fn rests(role: u32, e: u32) -> bool
    ensures { result ≡ (not (eqb role input) || eqb e never_entry) }
{
    role != INPUT || e == NEVER_ENTRY
}

// Whether every input has no next change.
pub fn inputs_rest(net: &[u32], changes: [u32; 24]) -> bool
    requires { Laid (net_circuit net.now) net.now }
    ensures { result ≡ below (at net.now nodes_place) (rests_at net.now changes) }
{
    for i in 0..net[net::NODES] as usize {
        if !rests(net[net::ROLE + i], changes[i]) {
            return false;
        }
    }
    true
}

fn after_now(present: u32, time: Picoseconds) -> u32
    requires { time.0 < 2 ^ 32 }
    ensures { result ≡ after_now present time.0 }
{
    let then = time.0;
    if (present as u64) < then {
        then as u32
    } else {
        numbers::NEVER
    }
}

// The earliest time of the schedule after the present time, or never.
pub fn scheduled_after(net: &[u32], present: u32) -> u32
    requires { Laid (net_circuit net.now) net.now }
    ensures { result ≡ scheduled_after net.now present }
{
    let mut earliest = numbers::NEVER;
    for i in 0..net[net::ENTRIES] as usize {
        earliest = numbers::least(earliest, after_now(present, entry_time(net, i)));
    }
    earliest
}
