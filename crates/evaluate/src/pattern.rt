// One pattern on plain numbers.
ghost use Rattle.std.specs.Prelude.{◌≡◌};
ghost use Rattle.diagram.specs.Store.{store};
ghost use Rattle.diagram.specs.Held.{held};
ghost use Rattle.net.specs.Net.{letters_place, at as at_place, net_circuit};
ghost use Rattle.table.specs.Holds.{Outcome};
ghost use Rattle.functions.specs.Open.{Open};
ghost use Rattle.descent.specs.Descend.{Inner};
ghost use Rattle.attempt.specs.Change.{change_from, change_by};
ghost use Rattle.attempt.specs.Entries.{Evaluable};
ghost use Rattle.evaluate.specs.Numbers.{Numbers};

use descent::letters::leaf_numbers;
use functions::numbers::TERMINAL;
use net::roots::{AFTER, CHANGE, ROOTS};
use plain::settle::change;
use table::Put;

// The next change of node n by the numbers of one pattern.
fn by_numbers(net: &[u32], numbers: &[u32], time: u32, all: bool, n: u32) -> u32
    requires { Inner net.now n × Numbers numbers.now }
    ensures { result ≡ change_from (net_circuit net.now) time all n numbers.now }
{
    let pending = numbers[CHANGE];
    change(
        net,
        &numbers[..AFTER],
        &numbers[AFTER..CHANGE],
        pending,
        time,
        all,
        n,
    )
}

// No letter is left: the terminal of the next change.
pub fn leaf(
    net: &[u32],
    letter: &mut [u32],
    low: &mut [u32],
    high: &mut [u32],
    index: &mut [u32],
    used: u32,
    time: u32,
    all: bool,
    n: u32,
    entries: &[u32; ROOTS],
) -> Put
    requires { Inner net.now n × Open (at_place net.now letters_place) letter.old low.old high.old index.old used × Evaluable (at_place net.now letters_place) (held letter.old low.old high.old used) used 0 entries.now }
    ensures { Outcome (held letter.old low.old high.old used) (store (at_place net.now letters_place) 0 (change_by (net_circuit net.now) time all n (at_place net.now letters_place) (held letter.old low.old high.old used) entries.now) (held letter.old low.old high.old used)) letter.new low.new high.new index.new result }
{
    let numbers = leaf_numbers(low, entries);
    let v = by_numbers(net, &numbers, time, all, n);
    table::add(letter, low, high, index, used, TERMINAL, v, 0)
}
