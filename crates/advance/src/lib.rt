// Start, step and run up to a picosecond on a cell that is laid out flat, with lent columns of legal lengths.
// Promise: the result, a refusal or the run, and the table afterwards are those of the definitions (rules' specs/Call.antt); soundness is checked, the
// index built and each entry's least number found once, also for a run of many steps. Internal to our crates: crate run has the calls
// on files and cells.
#![tactic(auto)]

mod close;
mod steps;

ghost use Rattle.std.specs.Prelude.{◌≡◌, true};
ghost use Rattle.refusal.specs.Answer.{answered};
ghost use Rattle.diagram.specs.Call.{columns, lengths_legal};
ghost use Rattle.rules.specs.Call.{working_legal, start_call};
ghost use Rattle.table.specs.Holds.{Sized, Lent, Empty};
ghost use Rattle.net.specs.Net.{net_circuit};
ghost use Rattle.net.specs.Laid.{Laid};
ghost use Rattle.advance.specs.declared.Task.TheVariants.{Step, Until};
ghost use Rattle.advance.specs.Task.{task_call};
ghost use Rattle.advance.specs.Parts.{Together};
ghost use Rattle.advance.specs.Went.{WentAs};

use admit::{start, step};
use close::closed;
use functions::numbers::NEVER;
use record::{Run, run_sound, time_after};
use refusal::Refusal;
use steps::steps;
use table::sound;

// What is to be done: a start in a table with so many entries used, a step, or every step not later than a time.
#[derive(Clone, Copy)]
pub enum Task {
    Start(u32),
    Step,
    Until(u32),
}

// Whether run and table are sound together; where the table is, the index holds it.
fn sound_together(
    net: &[u32],
    letter: &[u32],
    low: &[u32],
    high: &[u32],
    index: &mut [u32],
    r: Run,
) -> bool
    requires { Laid (net_circuit net.now) net.now × Sized letter.now low.now high.now index.old × Empty index.old }
    ensures { Together net.now letter.now low.now high.now index.new r result }
{
    let k = net[net::LETTERS];
    let used = r.used;
    if !sound(k, letter, low, high, used, index) {
        return false;
    }
    run_sound(net, letter, low, high, r)
}

fn start_task(
    net: &[u32],
    letter: &mut [u32],
    low: &mut [u32],
    high: &mut [u32],
    index: &mut [u32],
    used: u32,
    wletter: &mut [u32],
    wlow: &mut [u32],
    whigh: &mut [u32],
    windex: &mut [u32],
) -> Result<Run, Refusal>
    requires laid { Laid (net_circuit net.now) net.now × (lengths_legal (columns letter.old low.old high.old) ≡ true) × (working_legal (columns wletter.old wlow.old whigh.old) ≡ true) }
    requires sized { Sized letter.old low.old high.old index.old × Empty index.old × Lent wletter.old wlow.old whigh.old windex.old }
    ensures { WentAs (columns letter.old low.old high.old) (columns letter.new low.new high.new) (start_call (answered (net_circuit net.now)) (columns letter.old low.old high.old) used (columns wletter.old wlow.old whigh.old)) result }
{
    let k = net[net::LETTERS];
    if !sound(k, letter, low, high, used, index) {
        return Err(Refusal::Unsound);
    }
    let next = start(
        net, letter, low, high, index, used, wletter, wlow, whigh, windex,
    );
    closed(letter, low, high, used, next)
}

fn step_task(
    net: &[u32],
    letter: &mut [u32],
    low: &mut [u32],
    high: &mut [u32],
    index: &mut [u32],
    r: Run,
    wletter: &mut [u32],
    wlow: &mut [u32],
    whigh: &mut [u32],
    windex: &mut [u32],
) -> Result<Run, Refusal>
    requires laid { Laid (net_circuit net.now) net.now × (lengths_legal (columns letter.old low.old high.old) ≡ true) × (working_legal (columns wletter.old wlow.old whigh.old) ≡ true) }
    requires sized { Sized letter.old low.old high.old index.old × Empty index.old × Lent wletter.old wlow.old whigh.old windex.old }
    ensures { WentAs (columns letter.old low.old high.old) (columns letter.new low.new high.new) (task_call (answered (net_circuit net.now)) Step (columns letter.old low.old high.old) r (columns wletter.old wlow.old whigh.old)) result }
{
    if !sound_together(net, letter, low, high, index, r) {
        return Err(Refusal::Unsound);
    }
    let mut least = [0u32; 65536];
    let time = time_after(net, letter, low, high, r, &mut least, 0);
    if time == NEVER {
        return Err(Refusal::Finished);
    }
    let next = step(
        net, letter, low, high, index, r, wletter, wlow, whigh, windex, time, &mut least,
    );
    closed(letter, low, high, r.used, next)
}

fn run_task(
    net: &[u32],
    letter: &mut [u32],
    low: &mut [u32],
    high: &mut [u32],
    index: &mut [u32],
    r: Run,
    wletter: &mut [u32],
    wlow: &mut [u32],
    whigh: &mut [u32],
    windex: &mut [u32],
    until: u32,
) -> Result<Run, Refusal>
    requires laid { Laid (net_circuit net.now) net.now × (lengths_legal (columns letter.old low.old high.old) ≡ true) × (working_legal (columns wletter.old wlow.old whigh.old) ≡ true) }
    requires sized { Sized letter.old low.old high.old index.old × Empty index.old × Lent wletter.old wlow.old whigh.old windex.old }
    ensures { WentAs (columns letter.old low.old high.old) (columns letter.new low.new high.new) (task_call (answered (net_circuit net.now)) (Until until) (columns letter.old low.old high.old) r (columns wletter.old wlow.old whigh.old)) result }
{
    if !sound_together(net, letter, low, high, index, r) {
        return Err(Refusal::Unsound);
    }
    let next = steps(
        net, letter, low, high, index, r, wletter, wlow, whigh, windex, until,
    );
    closed(letter, low, high, r.used, next)
}

// A task on a cell laid out flat. `index` is empty; what working holds afterwards is left open here.
pub fn advance(
    net: &[u32],
    task: Task,
    letter: &mut [u32],
    low: &mut [u32],
    high: &mut [u32],
    index: &mut [u32],
    r: Run,
    wletter: &mut [u32],
    wlow: &mut [u32],
    whigh: &mut [u32],
    windex: &mut [u32],
) -> Result<Run, Refusal>
    requires laid { Laid (net_circuit net.now) net.now × (lengths_legal (columns letter.old low.old high.old) ≡ true) × (working_legal (columns wletter.old wlow.old whigh.old) ≡ true) }
    requires sized { Sized letter.old low.old high.old index.old × Empty index.old × Lent wletter.old wlow.old whigh.old windex.old }
    ensures { WentAs (columns letter.old low.old high.old) (columns letter.new low.new high.new) (task_call (answered (net_circuit net.now)) task (columns letter.old low.old high.old) r (columns wletter.old wlow.old whigh.old)) result }
{
    match task {
        Task::Start(used) => start_task(
            net, letter, low, high, index, used, wletter, wlow, whigh, windex,
        ),
        Task::Step => step_task(
            net, letter, low, high, index, r, wletter, wlow, whigh, windex,
        ),
        Task::Until(until) => run_task(
            net, letter, low, high, index, r, wletter, wlow, whigh, windex, until,
        ),
    }
}
