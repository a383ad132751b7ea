// Rule 3 where channels make loops: the kept functions of the transistors, by rising number, with the matrix of joined-functions.
ghost use Rattle.std.specs.Prelude.{◌≡◌, true, false, ℕ, ◌+◌, ◌<◌, ◌≤◌, get_or, eqb};
ghost use Rattle.format.specs.Circuit.{first_node_number};
ghost use Rattle.diagram.specs.Table.{number_at};
ghost use Rattle.diagram.specs.Held.{held};
ghost use Rattle.table.specs.Stop.{stopped};
ghost use Rattle.functions.specs.Open.{Open};
ghost use Rattle.working.specs.Grown.{bit, Crowded, Grown};
ghost use Rattle.working.specs.Many.{AllUsed, cell};
ghost use Rattle.net.specs.Net.{nodes_place, transistors_place, at as at_place, net_transistor, net_circuit};
ghost use Rattle.net.specs.Laid.{Laid};
ghost use Rattle.prepare.specs.Steps.{Bits, conducts_number, KeptLooped, kept_at, Linking};

use crate::group::group_of;
use net::inner::between_inner;
use table::{Put, Stop, stopped};
use working::link::link;
use working::{both, opposite, without};

// The kept functions by transistor number, unless working them out stopped.
#[derive(Clone, Copy)]
pub struct Kept {
    pub stop: Stop,
    pub used: u32,
    pub entries: [u32; 64],
}

// Where transistor i conducts: an n where its gate is 1, a p where it is not.
pub fn conducts(
    net: &[u32],
    values: [u32; 26],
    letter: &mut [u32],
    low: &mut [u32],
    high: &mut [u32],
    index: &mut [u32],
    used: u32,
    k: u32,
    i: u32,
) -> Put
    requires laid { Laid (net_circuit net.now) net.now × (i < at_place net.now transistors_place) }
    requires fact { Open k letter.old low.old high.old index.old used × AllUsed 26 values used }
    ensures { Grown k (held letter.old low.old high.old used) (λ p. conducts_number (net_transistor net.now i).polarity (number_at k (held letter.old low.old high.old used) (get_or values (net_transistor net.now i).gate 0) p)) letter.new low.new high.new index.new result }
{
    let at = i as usize;
    let gate = net[net::GATE + at] as usize;
    let v = values[gate];
    if net[net::POLARITY + at] == 1 {
        return opposite(letter, low, high, index, used, k, v);
    }
    Put {
        stop: Stop::Going,
        entry: v,
        used,
    }
}

// Transistor i is kept where its group is active and it conducts, unless its ends are inner nodes that are joined already.
fn keep(
    net: &[u32],
    values: [u32; 26],
    active: [u32; 26],
    joined: &[[u32; 24]; 24],
    letter: &mut [u32],
    low: &mut [u32],
    high: &mut [u32],
    index: &mut [u32],
    used: u32,
    k: u32,
    i: u32,
) -> Put
    requires laid { Laid (net_circuit net.now) net.now × (i < at_place net.now transistors_place) }
    requires fact { Open k letter.old low.old high.old index.old used × AllUsed 26 values used × AllUsed 26 active used × ((x y : ℕ) → x < 24 → y < 24 → cell joined.now x y < used) }
    ensures { Grown k (held letter.old low.old high.old used) (λ p. kept_at net.now k (held letter.old low.old high.old used) values active joined.now i p) letter.new low.new high.new index.new result }
{
    let g = group_of(net, i);
    let e = active[g];
    if e == 0 {
        return Put {
            stop: Stop::Going,
            entry: 0,
            used,
        };
    }
    let p = conducts(net, values, letter, low, high, index, used, k, i);
    let why = p.stop;
    if stopped(why) {
        return p;
    }
    let q = both(letter, low, high, index, p.used, k, e, p.entry);
    let why = q.stop;
    if stopped(why) {
        return q;
    }
    if !between_inner(net, i) {
        return q;
    }
    let at = i as usize;
    let a = net[net::FIRST + at] as usize - 2;
    let b = net[net::SECOND + at] as usize - 2;
    without(letter, low, high, index, q.used, k, q.entry, joined[a][b])
}

// The matrix becomes that after transistor i, and stays where nothing is kept or an end is driven. No room: `used` becomes 0.
fn link_kept(
    net: &[u32],
    letter: &mut [u32],
    low: &mut [u32],
    high: &mut [u32],
    index: &mut [u32],
    used: &mut u32,
    k: u32,
    i: u32,
    kept: u32,
    joined: &mut [[u32; 24]; 24],
)
    requires laid { Laid (net_circuit net.now) net.now × (i < at_place net.now transistors_place) }
    requires fact { Open k letter.old low.old high.old index.old used.old × (kept < used.old) × ((x y : ℕ) → x < 24 → y < 24 → cell joined.old x y < used.old) }
    ensures { Linking net.now k (held letter.old low.old high.old used.old) kept joined.old i letter.new low.new high.new index.new used.new joined.new }
{
    if kept == 0 {
        return;
    }
    if !between_inner(net, i) {
        return;
    }
    let at = i as usize;
    let a = net[net::FIRST + at] as usize - 2;
    let b = net[net::SECOND + at] as usize - 2;
    let old = *joined;
    *joined = link(letter, low, high, index, used, k, kept, a, b, old);
}

// At first each node is joined to itself alone.
fn identity() -> [[u32; 24]; 24]
    ensures { (x y : ℕ) → x < 24 → y < 24 → cell result x y ≡ bit (eqb x y) }
{
    let mut out = [[0u32; 24]; 24];
    for x in 0..24 {
        out[x][x] = 1;
    }
    out
}

// The kept functions of the first `count` transistors, by rising number.
pub fn keep_looped(
    net: &[u32],
    values: [u32; 26],
    active: [u32; 26],
    letter: &mut [u32],
    low: &mut [u32],
    high: &mut [u32],
    index: &mut [u32],
    used: u32,
    k: u32,
    count: u32,
) -> Kept
    requires laid { Laid (net_circuit net.now) net.now × (count ≤ at_place net.now transistors_place) }
    requires fact { Open k letter.old low.old high.old index.old used × AllUsed 26 values used × AllUsed 26 active used × Bits k (held letter.old low.old high.old used) values (first_node_number + at_place net.now nodes_place) }
    ensures { (stopped result.stop ≡ false → KeptLooped (net_circuit net.now) (at_place net.now nodes_place) k (held letter.old low.old high.old used) values active count letter.new low.new high.new index.new result.used result.entries) × (stopped result.stop ≡ true → Crowded k (held letter.old low.old high.old used) letter.new low.new high.new index.new) }
{
    let mut joined = identity();
    let mut out = [0u32; 64];
    let mut now = used;
    for i in 0..count {
        let p = keep(
            net, values, active, &joined, letter, low, high, index, now, k, i,
        );
        let why = p.stop;
        if stopped(why) {
            return Kept {
                stop: why,
                used,
                entries: out,
            };
        }
        let e = p.entry;
        out[i as usize] = e;
        now = p.used;
        link_kept(
            net,
            letter,
            low,
            high,
            index,
            &mut now,
            k,
            i,
            e,
            &mut joined,
        );
        if now == 0 {
            return Kept {
                stop: Stop::Full,
                used,
                entries: out,
            };
        }
    }
    Kept {
        stop: Stop::Going,
        used: now,
        entries: out,
    }
}
