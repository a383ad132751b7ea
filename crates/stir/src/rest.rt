// Next changes where nothing was stirred: the pending ones with T taken out.
ghost use Rattle.std.specs.Prelude.{◌≡◌, false, map, suc, ◌<◌};
ghost use Rattle.diagram.specs.Store.{store};
ghost use Rattle.diagram.specs.Held.{held};
ghost use Rattle.table.specs.Stop.{stopped};
ghost use Rattle.table.specs.Holds.{Outcome};
ghost use Rattle.functions.specs.Open.{Open, Operand};
ghost use Rattle.functions.specs.Known.{Caches};
ghost use Rattle.rules.specs.State.{node_numbers};
ghost use Rattle.rules.specs.Run.{store_all};
ghost use Rattle.net.specs.Net.{letters_place, at as at_place, net_circuit};
ghost use Rattle.plain.specs.Ready.{Net, Noded};
ghost use Rattle.record.specs.Leasts.{Leasts};
ghost use Rattle.values.specs.All.{OutcomeAll};
ghost use Rattle.stir.specs.Pending.{PendingEntries, PendingLeasts};
ghost use Rattle.stir.specs.Rest.{past_of, passes, rest_with, rest_of};

use cache::{WORDS, look};
use functions::numbers::TERMINAL;
use functions::step::join_kept;
use net::inner::is_inner;
use plain::settle::pending_after;
use table::{Put, Stop, stopped};
use values::Many;

// The entry of never.
pub const NEVER: u32 = 2;

// Entry `e`, whose letters are among the last `left` of the k, with T taken out: itself where all its numbers are later. With a cache of
// such entries that were stored before.
fn past_in(
    letter: &mut [u32],
    low: &mut [u32],
    high: &mut [u32],
    index: &mut [u32],
    used: u32,
    k: u32,
    time: u32,
    e: u32,
    left: u32,
    least: &[u32],
    cache: &mut [u32],
) -> Put
    requires fact { Open k letter.old low.old high.old index.old used × Operand k (held letter.old low.old high.old used) used left e × Leasts k (held letter.old low.old high.old used) (suc e) least.now }
    requires caches { Caches (passes time k) k (held letter.old low.old high.old used) cache.old }
    ensures outcome { Outcome (held letter.old low.old high.old used) (store k 0 (past_of time k (held letter.old low.old high.old used) e) (held letter.old low.old high.old used)) letter.new low.new high.new index.new result }
    ensures caches_2 { stopped result.stop ≡ false → Caches (passes time k) k (held letter.new low.new high.new result.used) cache.new }
{
    let i = e as usize;
    let first = least[i];
    if time < first {
        return Put {
            stop: Stop::Going,
            entry: e,
            used,
        };
    }
    let m = letter[i];
    let a = low[i];
    let b = high[i];
    if m == TERMINAL {
        let v = pending_after(time, a);
        return table::add(letter, low, high, index, used, TERMINAL, v, 0);
    }
    let old = look(cache, e, 0, 0);
    if old != 0 {
        return Put {
            stop: Stop::Going,
            entry: old - 1,
            used,
        };
    }
    let p = past_in(
        letter,
        low,
        high,
        index,
        used,
        k,
        time,
        a,
        left - 1,
        least,
        cache,
    );
    let why = p.stop;
    if stopped(why) {
        return p;
    }
    let q = past_in(
        letter,
        low,
        high,
        index,
        p.used,
        k,
        time,
        b,
        left - 1,
        least,
        cache,
    );
    let why = q.stop;
    if stopped(why) {
        return q;
    }
    join_kept(
        letter, low, high, index, q.used, m, p.entry, q.entry, cache, e, 0, 0,
    )
}

// Entry `e`, whose letters are among the last `left` of the k, with T taken out.
fn past(
    letter: &mut [u32],
    low: &mut [u32],
    high: &mut [u32],
    index: &mut [u32],
    used: u32,
    k: u32,
    time: u32,
    e: u32,
    left: u32,
    least: &[u32],
) -> Put
    requires { Open k letter.old low.old high.old index.old used × Operand k (held letter.old low.old high.old used) used left e × Leasts k (held letter.old low.old high.old used) (suc e) least.now }
    ensures { Outcome (held letter.old low.old high.old used) (store k 0 (past_of time k (held letter.old low.old high.old used) e) (held letter.old low.old high.old used)) letter.new low.new high.new index.new result }
{
    let i = e as usize;
    let first = least[i];
    if time < first {
        return Put {
            stop: Stop::Going,
            entry: e,
            used,
        };
    }
    let mut cache: [u32; WORDS] = [0; WORDS];
    past_in(
        letter, low, high, index, used, k, time, e, left, least, &mut cache,
    )
}

// The next change of node n by pending change `e`.
pub fn at_rest(
    net: &[u32],
    letter: &mut [u32],
    low: &mut [u32],
    high: &mut [u32],
    index: &mut [u32],
    used: u32,
    time: u32,
    n: u32,
    e: u32,
    least: &[u32],
) -> Put
    requires { Net net.now × Noded net.now n × Open (at_place net.now letters_place) letter.old low.old high.old index.old used × (e < used) × Leasts (at_place net.now letters_place) (held letter.old low.old high.old used) (suc e) least.now }
    ensures { Outcome (held letter.old low.old high.old used) (store (at_place net.now letters_place) 0 (rest_with (net_circuit net.now) time (at_place net.now letters_place) (held letter.old low.old high.old used) e n) (held letter.old low.old high.old used)) letter.new low.new high.new index.new result }
{
    if !is_inner(net, n) {
        return Put {
            stop: Stop::Going,
            entry: NEVER,
            used,
        };
    }
    let k = net[net::LETTERS];
    past(letter, low, high, index, used, k, time, e, k, least)
}

// All next changes, in node order.
pub fn all_at_rest(
    net: &[u32],
    letter: &mut [u32],
    low: &mut [u32],
    high: &mut [u32],
    index: &mut [u32],
    used: u32,
    time: u32,
    pending: [u32; 26],
    least: &[u32],
) -> Many
    requires { Net net.now × Open (at_place net.now letters_place) letter.old low.old high.old index.old used × PendingEntries used pending × PendingLeasts (at_place net.now letters_place) (held letter.old low.old high.old used) pending least.now }
    ensures { OutcomeAll (held letter.old low.old high.old used) (store_all (at_place net.now letters_place) (map (rest_of (net_circuit net.now) time (at_place net.now letters_place) (held letter.old low.old high.old used) pending) (node_numbers (net_circuit net.now))) (held letter.old low.old high.old used)) letter.new low.new high.new index.new result.stop result.used result.entries }
{
    let count = net[net::NODES] as usize;
    let mut out = [0u32; 24];
    let mut now = used;
    for i in 0..count {
        let p = at_rest(
            net,
            letter,
            low,
            high,
            index,
            now,
            time,
            i as u32 + 2,
            pending[i + 2],
            least,
        );
        let why = p.stop;
        if stopped(why) {
            return Many {
                stop: why,
                used: now,
                entries: out,
            };
        }
        out[i] = p.entry;
        now = p.used;
    }
    Many {
        stop: Stop::Going,
        used: now,
        entries: out,
    }
}
