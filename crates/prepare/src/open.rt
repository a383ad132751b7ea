// Rule 3 past the last transistor that closes a loop of channels: each is kept wherever it conducts, and no matrix is needed.
ghost use Rattle.std.specs.Prelude.{◌≡◌, true, false, ◌+◌, ◌<◌, get_or};
ghost use Rattle.format.specs.Circuit.{first_node_number};
ghost use Rattle.diagram.specs.Table.{number_at};
ghost use Rattle.diagram.specs.Held.{held};
ghost use Rattle.table.specs.Stop.{stopped};
ghost use Rattle.functions.specs.Open.{Open};
ghost use Rattle.working.specs.Grown.{Crowded, Grown};
ghost use Rattle.working.specs.Many.{AllUsed};
ghost use Rattle.net.specs.Net.{nodes_place, transistors_place, at as at_place, net_transistor, net_circuit};
ghost use Rattle.net.specs.Laid.{Laid};
ghost use Rattle.prepare.specs.Steps.{Bits, group_of, open_number, KeptRest, KeptWhole};

use crate::group::group_of;
use crate::keep::{Kept, conducts, keep_looped};
use functions::numbers::least;
use table::{Put, Stop, stopped};

// Transistor i is kept where it conducts; a group that is not active needs no function.
fn keep_open(
    net: &[u32],
    values: [u32; 26],
    active: [u32; 26],
    letter: &mut [u32],
    low: &mut [u32],
    high: &mut [u32],
    index: &mut [u32],
    used: u32,
    k: u32,
    i: u32,
) -> Put
    requires laid { Laid (net_circuit net.now) net.now × (i < at_place net.now transistors_place) }
    requires fact { Open k letter.old low.old high.old index.old used × AllUsed 26 values used × AllUsed 26 active used }
    ensures { Grown k (held letter.old low.old high.old used) (λ p. open_number (net_transistor net.now i).polarity (get_or active (group_of (net_circuit net.now) (net_transistor net.now i)) 0) (number_at k (held letter.old low.old high.old used) (get_or values (net_transistor net.now i).gate 0) p)) letter.new low.new high.new index.new result }
{
    let g = group_of(net, i);
    let e = active[g];
    if e == 0 {
        return Put {
            stop: Stop::Going,
            entry: 0,
            used,
        };
    }
    conducts(net, values, letter, low, high, index, used, k, i)
}

// The kept functions from transistor `from` on, beside those before it.
fn keep_rest(
    net: &[u32],
    values: [u32; 26],
    active: [u32; 26],
    letter: &mut [u32],
    low: &mut [u32],
    high: &mut [u32],
    index: &mut [u32],
    used: u32,
    k: u32,
    from: u32,
    kept: [u32; 64],
) -> Kept
    requires laid { Laid (net_circuit net.now) net.now }
    requires fact { Open k letter.old low.old high.old index.old used × AllUsed 26 values used × AllUsed 26 active used × AllUsed 64 kept used × Bits k (held letter.old low.old high.old used) values (first_node_number + at_place net.now nodes_place) }
    ensures { (stopped result.stop ≡ false → KeptRest (net_circuit net.now) (at_place net.now nodes_place) k (held letter.old low.old high.old used) values active kept from (at_place net.now transistors_place) letter.new low.new high.new index.new result.used result.entries) × (stopped result.stop ≡ true → Crowded k (held letter.old low.old high.old used) letter.new low.new high.new index.new) }
{
    let count = net[net::TRANSISTORS];
    let mut out = kept;
    let mut now = used;
    for i in from..count {
        let p = keep_open(net, values, active, letter, low, high, index, now, k, i);
        let why = p.stop;
        if stopped(why) {
            return Kept {
                stop: why,
                used,
                entries: out,
            };
        }
        out[i as usize] = p.entry;
        now = p.used;
    }
    Kept {
        stop: Stop::Going,
        used: now,
        entries: out,
    }
}

// The kept functions of all transistors: with the matrix as far as one closes a loop, and without it past that.
pub fn keep_all(
    net: &[u32],
    values: [u32; 26],
    active: [u32; 26],
    letter: &mut [u32],
    low: &mut [u32],
    high: &mut [u32],
    index: &mut [u32],
    used: u32,
    k: u32,
) -> Kept
    requires laid { Laid (net_circuit net.now) net.now }
    requires fact { Open k letter.old low.old high.old index.old used × AllUsed 26 values used × AllUsed 26 active used × Bits k (held letter.old low.old high.old used) values (first_node_number + at_place net.now nodes_place) }
    ensures { KeptWhole net.now k (held letter.old low.old high.old used) values active letter.new low.new high.new index.new result.stop result.used result.entries }
{
    let limit = least(net[net::LOOPS], net[net::TRANSISTORS]);
    let a = keep_looped(
        net, values, active, letter, low, high, index, used, k, limit,
    );
    let why = a.stop;
    if stopped(why) {
        return a;
    }
    let kept = a.entries;
    keep_rest(
        net, values, active, letter, low, high, index, a.used, k, limit, kept,
    )
}
