// Rule 2: the nodes that are seeds, and the groups that have one.
ghost use Rattle.std.specs.Prelude.{◌≡◌, true, false, ◌&&◌, ◌||◌, cond, ℕ, ◌+◌, ◌<◌, ◌≤◌, get_or, eqb, ltb};
ghost use Rattle.format.specs.Circuit.{first_node_number};
ghost use Rattle.format.specs.Legal.{is_input};
ghost use Rattle.diagram.specs.Pattern.{patterns};
ghost use Rattle.diagram.specs.Table.{number_at};
ghost use Rattle.diagram.specs.Held.{held};
ghost use Rattle.functions.specs.Open.{Open, Legible};
ghost use Rattle.working.specs.Grown.{bit, Grown};
ghost use Rattle.working.specs.Many.{AllUsed};
ghost use Rattle.rules.specs.State.{is_inner};
ghost use Rattle.rules.specs.Label.{label_at};
ghost use Rattle.rules.specs.Group.{groups};
ghost use Rattle.net.specs.Net.{nodes_place, transistors_place, at as at_place, net_transistor, net_circuit};
ghost use Rattle.net.specs.Laid.{Laid};
ghost use Rattle.prepare.specs.Steps.{Bits, one, disturbed_by, is_considered, seed_by, differs, Active, Seeds};

use net::inner::is_inner;
use table::{Put, Stop, stopped};
use working::either;
use working::many::{Many, changed_all};

// The entry of a node's change, if the node is an input; else 0.
fn input_changed(net: &[u32], changed: [u32; 26], n: u32) -> u32
    requires { Laid (net_circuit net.now) net.now × (n < first_node_number + at_place net.now nodes_place) }
    ensures { result ≡ cond (is_input (net_circuit net.now) n) (get_or changed n 0) 0 }
{
    let at = n as usize;
    if at < 2 {
        return 0;
    }
    let role = net[net::ROLE + (at - 2)];
    if role == 1 { changed[at] } else { 0 }
}

// Either of two functions that are 0 or 1 everywhere: at once where `z` is entry 0 or both are one entry.
fn any(
    letter: &mut [u32],
    low: &mut [u32],
    high: &mut [u32],
    index: &mut [u32],
    used: u32,
    k: u32,
    a: u32,
    z: u32,
) -> Put
    requires { Open k letter.old low.old high.old index.old used × (a < used) × (z < used) × ((p : ℕ) → p < patterns k → number_at k (held letter.old low.old high.old used) a p ≤ 1) }
    ensures { Grown k (held letter.old low.old high.old used) (λ p. cond (eqb (number_at k (held letter.old low.old high.old used) a p) 1) 1 (number_at k (held letter.old low.old high.old used) z p)) letter.new low.new high.new index.new result }
{
    if (z == 0) | (a == z) {
        return Put {
            stop: Stop::Going,
            entry: a,
            used,
        };
    }
    either(letter, low, high, index, used, k, a, z)
}

// `z`, or where transistor i is disturbed: its gate changed, or an input at a channel end did. A change selects: where it is entry 0, `either`
// answers at once, and `any` also where `z` is entry 0 or the gate's change itself.
fn touch(
    net: &[u32],
    changed: [u32; 26],
    letter: &mut [u32],
    low: &mut [u32],
    high: &mut [u32],
    index: &mut [u32],
    used: u32,
    k: u32,
    i: u32,
    z: u32,
) -> Put
    requires laid { Laid (net_circuit net.now) net.now × (i < at_place net.now transistors_place) }
    requires fact { Open k letter.old low.old high.old index.old used × AllUsed 26 changed used × Bits k (held letter.old low.old high.old used) changed 26 × (z < used) × ((p : ℕ) → p < patterns k → number_at k (held letter.old low.old high.old used) z p ≤ 1) }
    ensures { Grown k (held letter.old low.old high.old used) (λ p. bit (one k (held letter.old low.old high.old used) z p || disturbed_by (net_circuit net.now) (λ n. one k (held letter.old low.old high.old used) (get_or changed n 0) p) (net_transistor net.now i))) letter.new low.new high.new index.new result }
{
    let at = i as usize;
    let gate = net[net::GATE + at] as usize;
    let a = input_changed(net, changed, net[net::FIRST + at]);
    let b = input_changed(net, changed, net[net::SECOND + at]);
    let p = any(letter, low, high, index, used, k, changed[gate], z);
    let why = p.stop;
    if stopped(why) {
        return p;
    }
    let q = either(letter, low, high, index, p.used, k, a, p.entry);
    let why = q.stop;
    if stopped(why) {
        return q;
    }
    either(letter, low, high, index, q.used, k, b, q.entry)
}

// Where inner node n is a seed: a transistor with a channel end at it is disturbed.
fn seed_node(
    net: &[u32],
    changed: [u32; 26],
    letter: &mut [u32],
    low: &mut [u32],
    high: &mut [u32],
    index: &mut [u32],
    used: u32,
    k: u32,
    n: u32,
) -> Put
    requires laid { Laid (net_circuit net.now) net.now × (n < first_node_number + at_place net.now nodes_place) × (is_inner (net_circuit net.now) n ≡ true) }
    requires fact { Open k letter.old low.old high.old index.old used × AllUsed 26 changed used × Bits k (held letter.old low.old high.old used) changed 26 }
    ensures { Grown k (held letter.old low.old high.old used) (λ p. bit (seed_by (net_circuit net.now) (λ m. one k (held letter.old low.old high.old used) (get_or changed m 0) p) n)) letter.new low.new high.new index.new result }
{
    let at = n as usize;
    let count = net[net::DEGREE + at];
    let mut z = 0;
    let mut now = used;
    for j in 0..count {
        let i = net[net::ARMS + 64 * at + j as usize];
        let p = touch(net, changed, letter, low, high, index, now, k, i, z);
        let why = p.stop;
        if stopped(why) {
            return p;
        }
        z = p.entry;
        now = p.used;
    }
    Put {
        stop: Stop::Going,
        entry: z,
        used: now,
    }
}

// 1 for an inner node of a considered group.
fn considered_bit(net: &[u32], only: usize, n: u32) -> u32
    requires { Laid (net_circuit net.now) net.now × (n < first_node_number + at_place net.now nodes_place) }
    ensures { result ≡ bit (is_considered (net_circuit net.now) only n) }
{
    if !is_inner(net, n) {
        return 0;
    }
    if only == 0 {
        return 1;
    }
    let g = net[net::GROUP + n as usize] as usize;
    if g == only { 1 } else { 0 }
}

// The same as `seed_node` for such a node; 0 for another.
fn seed_one(
    net: &[u32],
    changed: [u32; 26],
    letter: &mut [u32],
    low: &mut [u32],
    high: &mut [u32],
    index: &mut [u32],
    used: u32,
    k: u32,
    n: u32,
    only: usize,
) -> Put
    requires laid { Laid (net_circuit net.now) net.now × (n < first_node_number + at_place net.now nodes_place) }
    requires fact { Open k letter.old low.old high.old index.old used × AllUsed 26 changed used × Bits k (held letter.old low.old high.old used) changed 26 }
    ensures { Grown k (held letter.old low.old high.old used) (λ p. bit (is_considered (net_circuit net.now) only n && seed_by (net_circuit net.now) (λ m. one k (held letter.old low.old high.old used) (get_or changed m 0) p) n)) letter.new low.new high.new index.new result }
{
    if considered_bit(net, only, n) == 0 {
        return Put {
            stop: Stop::Going,
            entry: 0,
            used,
        };
    }
    seed_node(net, changed, letter, low, high, index, used, k, n)
}

// Where each node is a seed, by number.
fn seed_nodes(
    net: &[u32],
    changed: [u32; 26],
    letter: &mut [u32],
    low: &mut [u32],
    high: &mut [u32],
    index: &mut [u32],
    used: u32,
    k: u32,
    only: usize,
) -> Many
    requires laid { Laid (net_circuit net.now) net.now }
    requires fact { Open k letter.old low.old high.old index.old used × AllUsed 26 changed used × Bits k (held letter.old low.old high.old used) changed 26 }
    ensures { Seeds net.now k (held letter.old low.old high.old used) false only (λ p m. one k (held letter.old low.old high.old used) (get_or changed m 0) p) letter.new low.new high.new index.new result.stop result.used result.entries }
{
    let count = net[net::NODES] + 2;
    let mut out = [0u32; 26];
    let mut now = used;
    for n in 0..count {
        let p = seed_one(net, changed, letter, low, high, index, now, k, n, only);
        let why = p.stop;
        if stopped(why) {
            return Many {
                stop: why,
                used: now,
                entries: out,
            };
        }
        out[n as usize] = p.entry;
        now = p.used;
    }
    Many {
        stop: Stop::Going,
        used: now,
        entries: out,
    }
}

// Each inner node of a considered group a seed at every pattern.
fn every_node(net: &[u32], only: usize) -> [u32; 26]
    requires { Laid (net_circuit net.now) net.now }
    ensures { (n : ℕ) → n < 26 → get_or result n 0 ≡ cond (ltb n (first_node_number + at_place net.now nodes_place)) (bit (is_considered (net_circuit net.now) only n)) 0 }
{
    let count = net[net::NODES] + 2;
    let mut out = [0u32; 26];
    for n in 0..count {
        out[n as usize] = considered_bit(net, only, n);
    }
    out
}

// Where each node is a seed, by number: everywhere where `all`, else by what changed.
pub fn seed_all(
    net: &[u32],
    tletter: &[u32],
    tlow: &[u32],
    thigh: &[u32],
    tused: u32,
    letter: &mut [u32],
    low: &mut [u32],
    high: &mut [u32],
    index: &mut [u32],
    used: u32,
    k: u32,
    before: [u32; 26],
    after: [u32; 26],
    all: bool,
    only: usize,
) -> Many
    requires laid { Laid (net_circuit net.now) net.now }
    requires legible { Legible k tletter.now tlow.now thigh.now tused × AllUsed (first_node_number + at_place net.now nodes_place) before tused × AllUsed (first_node_number + at_place net.now nodes_place) after tused }
    requires fact { Open k letter.old low.old high.old index.old used }
    ensures { Seeds net.now k (held letter.old low.old high.old used) all only (differs (first_node_number + at_place net.now nodes_place) k (held tletter.now tlow.now thigh.now tused) before after) letter.new low.new high.new index.new result.stop result.used result.entries }
{
    if all {
        return Many {
            stop: Stop::Going,
            used,
            entries: every_node(net, only),
        };
    }
    let count = net[net::NODES] as usize + 2;
    let ch = changed_all(
        tletter, tlow, thigh, tused, letter, low, high, index, used, k, before, after, count,
    );
    let why = ch.stop;
    if stopped(why) {
        return ch;
    }
    let entries = ch.entries;
    seed_nodes(net, entries, letter, low, high, index, ch.used, k, only)
}

// The label of node n's group, if n is an inner node with another function than entry 0; else 0, which is no group's label.
fn active_label(net: &[u32], seeds: [u32; 26], n: u32) -> usize
    requires { Laid (net_circuit net.now) net.now × (n < first_node_number + at_place net.now nodes_place) }
    ensures { (result < 26) × (is_inner (net_circuit net.now) n ≡ true → (get_or seeds n 0 ≡ 0 → ⊥) → result ≡ label_at (groups (net_circuit net.now)) n) }
{
    let at = n as usize;
    if seeds[at] == 0 {
        return 0;
    }
    if !is_inner(net, n) {
        return 0;
    }
    net[net::GROUP + at] as usize
}

// By label, 1 for each group with a node that may be a seed; else 0.
pub fn active(net: &[u32], seeds: [u32; 26]) -> [u32; 26]
    requires { Laid (net_circuit net.now) net.now }
    ensures { Active (net_circuit net.now) (first_node_number + at_place net.now nodes_place) seeds result }
{
    let count = net[net::NODES] + 2;
    let mut out = [0u32; 26];
    for n in 0..count {
        let g = active_label(net, seeds, n);
        out[g] = 1;
    }
    out[0] = 0;
    out
}
