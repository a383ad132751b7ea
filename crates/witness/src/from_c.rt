// The calls from C, each held to its place in the demands.
ghost use Rattle.std.specs.Prelude.{◌≡◌, length, get_or};
ghost use Rattle.diagram.specs.Call.{columns};
ghost use Rattle.editor.specs.Runs.{record_column};
ghost use Rattle.demand.specs.FromC.{from_c};
ghost use Rattle.witness.specs.Holding.{held};

use record::Run;

// A fresh table.
pub fn fresh(letter: &mut [u32], low: &mut [u32], high: &mut [u32]) -> u32
    ensures { from_c.Fresh (columns letter.old low.old high.old) (columns letter.new low.new high.new) result }
{
    editor::tables::sts_fresh(letter, low, high)
}

// A start.
pub fn start(
    file: &[u8],
    letter: &mut [u32],
    low: &mut [u32],
    high: &mut [u32],
    used: u32,
    record: &mut [u32],
    work_letter: &mut [u32],
    work_low: &mut [u32],
    work_high: &mut [u32],
) -> u32
    ensures { from_c.Start file.now used (held letter.old low.old high.old «record».old) (held letter.new low.new high.new «record».new) (columns work_letter.old work_low.old work_high.old) (columns work_letter.new work_low.new work_high.new) result }
{
    editor::runs::sts_start(
        file,
        letter,
        low,
        high,
        used,
        record,
        work_letter,
        work_low,
        work_high,
    )
}

// A step.
pub fn step(
    file: &[u8],
    letter: &mut [u32],
    low: &mut [u32],
    high: &mut [u32],
    record: &mut [u32],
    work_letter: &mut [u32],
    work_low: &mut [u32],
    work_high: &mut [u32],
) -> u32
    ensures { from_c.Step file.now (held letter.old low.old high.old «record».old) (held letter.new low.new high.new «record».new) (columns work_letter.old work_low.old work_high.old) (columns work_letter.new work_low.new work_high.new) result }
{
    editor::runs::sts_step(
        file,
        letter,
        low,
        high,
        record,
        work_letter,
        work_low,
        work_high,
    )
}

// A step in place, on a struct with the numbers of a column.
pub fn advance(
    file: &[u8],
    letter: &mut [u32],
    low: &mut [u32],
    high: &mut [u32],
    run: &mut Run,
    work_letter: &mut [u32],
    work_low: &mut [u32],
    work_high: &mut [u32],
) -> u32
    ensures { from_c.InPlace file.now (held letter.old low.old high.old (record_column run.old)) (held letter.new low.new high.new (record_column run.new)) (columns work_letter.old work_low.old work_high.old) (columns work_letter.new work_low.new work_high.new) result }
{
    // read for the proof: an array that was read has its length
    let _values = run.values;
    let _changes = run.changes;
    editor::inplace::sts_advance(
        file,
        letter,
        low,
        high,
        run,
        work_letter,
        work_low,
        work_high,
    )
}

// A run up to a picosecond.
pub fn up_to(
    file: &[u8],
    until: u32,
    letter: &mut [u32],
    low: &mut [u32],
    high: &mut [u32],
    record: &mut [u32],
    work_letter: &mut [u32],
    work_low: &mut [u32],
    work_high: &mut [u32],
) -> u32
    ensures { from_c.UpTo file.now until (held letter.old low.old high.old «record».old) (held letter.new low.new high.new «record».new) (columns work_letter.old work_low.old work_high.old) (columns work_letter.new work_low.new work_high.new) result }
{
    editor::runs::sts_run(
        file,
        until,
        letter,
        low,
        high,
        record,
        work_letter,
        work_low,
        work_high,
    )
}

// The run question, with two numbers lent for its answer.
pub fn ask(
    file: &[u8],
    letter: &[u32],
    low: &[u32],
    high: &[u32],
    record: &[u32],
    node: u32,
    pattern: u32,
    answer: &mut [u32],
) -> u32
    requires { length answer.old ≡ 2 }
    ensures { from_c.Ask file.now (held letter.now low.now high.now «record».now) node pattern result (get_or answer.new 0 0) (get_or answer.new 1 0) }
{
    editor::runs::sts_ask(file, letter, low, high, record, node, pattern, answer)
}
