// The time of the next step of one pattern.
ghost use Rattle.std.specs.Prelude.{◌≡◌, map, cond, min, ltb, length};
ghost use Rattle.format.specs.declared.Entry.{Entry};
ghost use Rattle.diagram.specs.Table.{never};
ghost use Rattle.rules.specs.Run.{soonest, pattern_time};
ghost use Rattle.net.specs.Net.{net_circuit};
ghost use Rattle.net.specs.Laid.{Laid};
ghost use Rattle.plain.specs.Pattern.{of_nodes, shown};

use crate::State;
use crate::change::NEVER;
use net::quantities::entry_time;
use net::{ENTRIES, NODES};

// The earlier of a time, where it is after the present one, and of another.
fn sooner(present: u32, time: u32, other: u32) -> u32
    ensures { result ≡ min (cond (ltb present time) time never) other }
{
    if present < time {
        return time.min(other);
    }
    other
}

// The earliest next change after the present time, or never.
fn soonest_change(net: &[u32], changes: &[u32], present: u32) -> u32
    requires { Laid (net_circuit net.now) net.now × (length changes.now ≡ 26) }
    ensures { result ≡ soonest present (of_nodes (net_circuit net.now) changes.now) }
{
    let mut first = NEVER;
    for n in (2..2 + net[NODES] as usize).rev() {
        first = sooner(present, changes[n], first);
    }
    first
}

// The earliest time of the schedule after the present time, or never.
fn soonest_entry(net: &[u32], present: u32) -> u32
    requires { Laid (net_circuit net.now) net.now }
    ensures { result ≡ soonest present (map (λ (e : Entry). e.time.0) (net_circuit net.now).schedule) }
{
    let mut first = NEVER;
    for i in (0..net[ENTRIES] as usize).rev() {
        let at = entry_time(net, i);
        first = sooner(present, at.0 as u32, first);
    }
    first
}

// The earliest pending or scheduled time after the present one, or never.
pub fn next_time(net: &[u32], s: State, present: u32) -> u32
    requires { Laid (net_circuit net.now) net.now }
    ensures { result ≡ pattern_time (net_circuit net.now) present (shown (net_circuit net.now) s) }
{
    let changes = s.changes;
    let pending = soonest_change(net, &changes, present);
    let scheduled = soonest_entry(net, present);
    pending.min(scheduled)
}
