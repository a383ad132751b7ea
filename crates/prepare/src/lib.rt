// What a step works out before its descents, as entries of the working table: the roots of a step (specs/Roots.antt).
// Promise: values and next changes are those of the lent table; seeds and kept functions are rules 2 and 3 at every pattern.
// No room in the working table is an ordinary answer, which comes only where every row of its columns is used.
#![tactic(auto)]

ghost use Rattle.std.specs.Prelude.{◌≡◌, true, false, ◌+◌, length};
ghost use Rattle.format.specs.Circuit.{first_node_number};
ghost use Rattle.diagram.specs.Held.{held};
ghost use Rattle.table.specs.Holds.{Sized};
ghost use Rattle.table.specs.Stop.{stopped};
ghost use Rattle.functions.specs.Open.{Legible, Open};
ghost use Rattle.working.specs.Many.{AllUsed};
ghost use Rattle.net.specs.Net.{nodes_place, at as at_place, net_circuit};
ghost use Rattle.net.specs.Laid.{Laid};
ghost use Rattle.prepare.specs.Steps.{Bits};
ghost use Rattle.prepare.specs.Roots.{NodeRoots, KeptRoots, Roots};

pub mod group;
pub mod keep;
pub mod open;
pub mod seeds;

use net::roots::{ALL_ROOTS, KEPT, LEAF, PENDING, SEEDS};
use open::keep_all;
use seeds::{active, seed_all};
use table::{Stop, stopped};
use working::begin;
use working::many::bring_all;

// The roots of a step in their places (net::roots), unless working them out stopped.
#[derive(Clone, Copy)]
pub struct Prepared {
    pub stop: Stop,
    pub used: u32,
    pub roots: [u32; ALL_ROOTS],
}

// No roots, for a reason.
fn nothing(stop: Stop) -> Prepared
    ensures { result.stop ≡ stop }
{
    Prepared {
        stop,
        used: 0,
        roots: [0u32; ALL_ROOTS],
    }
}

// The roots of the nodes in their places.
fn node_roots(
    net: &[u32],
    values: [u32; 26],
    seeds: [u32; 26],
    waiting: [u32; 26],
) -> [u32; ALL_ROOTS]
    requires { Laid (net_circuit net.now) net.now }
    ensures { NodeRoots values seeds waiting (first_node_number + at_place net.now nodes_place) result }
{
    let count = net[net::NODES] as usize + 2;
    let mut out = [0u32; ALL_ROOTS];
    out[..count].copy_from_slice(&values[..count]);
    out[SEEDS..SEEDS + count].copy_from_slice(&seeds[..count]);
    out[PENDING..PENDING + count].copy_from_slice(&waiting[..count]);
    out
}

// The kept functions in their places.
fn kept_roots(roots: [u32; ALL_ROOTS], kept: [u32; 64]) -> [u32; ALL_ROOTS]
    ensures { KeptRoots roots kept 64 result }
{
    let mut out = roots;
    out[KEPT..LEAF].copy_from_slice(&kept);
    out
}

// Prepares a step: `before`, `after` and `pending` are entries of the lent table by node number; `only` is the label of one group, 0 for all.
pub fn prepare(
    net: &[u32],
    tletter: &[u32],
    tlow: &[u32],
    thigh: &[u32],
    tused: u32,
    letter: &mut [u32],
    low: &mut [u32],
    high: &mut [u32],
    index: &mut [u32],
    k: u32,
    before: [u32; 26],
    after: [u32; 26],
    pending: [u32; 26],
    all: bool,
    only: usize,
) -> Prepared
    requires laid { Laid (net_circuit net.now) net.now × Legible k tletter.now tlow.now thigh.now tused × Sized letter.old low.old high.old index.old }
    requires all_used { AllUsed (first_node_number + at_place net.now nodes_place) before tused × AllUsed (first_node_number + at_place net.now nodes_place) after tused × AllUsed (first_node_number + at_place net.now nodes_place) pending tused × Bits k (held tletter.now tlow.now thigh.now tused) after (first_node_number + at_place net.now nodes_place) }
    ensures { (stopped result.stop ≡ false → Roots net.now k (held tletter.now tlow.now thigh.now tused) before after pending all only letter.new low.new high.new index.new result.used result.roots) × (stopped result.stop ≡ true → Open k letter.new low.new high.new index.new (length letter.new)) }
{
    begin(letter, low, high, index, k);
    let count = net[net::NODES] as usize + 2;
    let v = bring_all(
        tletter, tlow, thigh, tused, letter, low, high, index, 3, k, after, count,
    );
    let why = v.stop;
    if stopped(why) {
        return nothing(why);
    }
    let values = v.entries;
    let w = bring_all(
        tletter, tlow, thigh, tused, letter, low, high, index, v.used, k, pending, count,
    );
    let why = w.stop;
    if stopped(why) {
        return nothing(why);
    }
    let waiting = w.entries;
    let t = seed_all(
        net, tletter, tlow, thigh, tused, letter, low, high, index, w.used, k, before, after, all,
        only,
    );
    let why = t.stop;
    if stopped(why) {
        return nothing(why);
    }
    let seeds = t.entries;
    let marks = active(net, seeds);
    let q = keep_all(net, values, marks, letter, low, high, index, t.used, k);
    let why = q.stop;
    if stopped(why) {
        return nothing(why);
    }
    let kept = q.entries;
    let nodes = node_roots(net, values, seeds, waiting);
    Prepared {
        stop: Stop::Going,
        used: q.used,
        roots: kept_roots(nodes, kept),
    }
}
