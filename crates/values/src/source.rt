// The sources of values: constants, letters and their complements; and the values of a start.
ghost use Rattle.std.specs.Prelude.{ℕ, ◌+◌, ◌*◌, ◌<◌, map};
ghost use Rattle.diagram.specs.Store.{store};
ghost use Rattle.diagram.specs.Held.{held};
ghost use Rattle.table.specs.Holds.{Outcome};
ghost use Rattle.functions.specs.Open.{Open};
ghost use Rattle.rules.specs.State.{value_at, node_numbers};
ghost use Rattle.rules.specs.Arrive.{source_at};
ghost use Rattle.rules.specs.Step.{started};
ghost use Rattle.rules.specs.Run.{store_all};
ghost use Rattle.net.specs.Net.{letters_place, at as at_place, net_circuit};
ghost use Rattle.net.specs.Laid.{Laid};
ghost use Rattle.values.specs.All.{OutcomeAll};

use crate::Many;
use functions::step::join;
use table::{Put, Stop, stopped};

// The function of a source byte.
pub fn source(
    letter: &mut [u32],
    low: &mut [u32],
    high: &mut [u32],
    index: &mut [u32],
    used: u32,
    k: u32,
    byte: u32,
) -> Put
    requires { Open k letter.old low.old high.old index.old used × (byte < 2 + 2 * k) }
    ensures { Outcome (held letter.old low.old high.old used) (store k 0 (source_at byte) (held letter.old low.old high.old used)) letter.new low.new high.new index.new result }
{
    if byte < 2 {
        return Put {
            stop: Stop::Going,
            entry: byte,
            used,
        };
    }
    let m = byte / 2 - 1;
    let odd = byte % 2;
    join(letter, low, high, index, used, m, odd, 1 - odd)
}

// The values of a start, in node order.
pub fn sources(
    net: &[u32],
    letter: &mut [u32],
    low: &mut [u32],
    high: &mut [u32],
    index: &mut [u32],
    used: u32,
) -> Many
    requires { Laid (net_circuit net.now) net.now × Open (at_place net.now letters_place) letter.old low.old high.old index.old used }
    ensures { OutcomeAll (held letter.old low.old high.old used) (store_all (at_place net.now letters_place) (map (λ (n : ℕ) (p : ℕ). value_at (started (net_circuit net.now) p) n) (node_numbers (net_circuit net.now))) (held letter.old low.old high.old used)) letter.new low.new high.new index.new result.stop result.used result.entries }
{
    let count = net[net::NODES] as usize;
    let k = net[net::LETTERS];
    let mut out = [0u32; 24];
    let mut now = used;
    for i in 0..count {
        let p = source(letter, low, high, index, now, k, net[net::START + i]);
        let why = p.stop;
        if stopped(why) {
            return Many {
                stop: why,
                used: now,
                entries: out,
            };
        }
        out[i] = p.entry;
        now = p.used;
    }
    Many {
        stop: Stop::Going,
        used: now,
        entries: out,
    }
}
