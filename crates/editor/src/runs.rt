// The calls on a run: start, step, run up to a picosecond, run question.
ghost use Rattle.std.specs.Prelude.{◌≡◌, ◌++◌, ◌+◌, ◌≤◌, length, take, drop};
ghost use Rattle.diagram.specs.Call.{columns};
ghost use Rattle.advance.specs.declared.Task.TheVariants.{Start, Step, Until};
ghost use Rattle.editor.specs.Runs.{record_in, record_column, task_answer, TaskDone, ask_answer, AskDone};
ghost use Rattle.editor.specs.Functions.{result_number};
ghost use Rattle.editor.specs.Replied.{column_after_reply, told_after_reply};

use advance::Task;
use record::{Run, Wire};
use refusal::Refusal;
use run::ask::ask_file;
use run::go::on_file;

// How many numbers a record has, and the answer of a question.
const RECORD: usize = 50;

const TOLD: usize = 2;

// 24 entries of a record from a place on.
fn entries(record: &[u32], from: usize) -> [u32; 24]
    requires { from + 24 ≤ length «record».now }
    ensures { result ≡ take 24 (drop from «record».now) }
{
    let mut out = [0u32; 24];
    out.copy_from_slice(&record[from..from + 24]);
    out
}

// The record in a column.
fn read_record(record: &[u32]) -> Run
    requires { length «record».now ≡ 50 }
    ensures { result ≡ record_in «record».now }
{
    let values = entries(record, 2);
    let changes = entries(record, 26);
    Run {
        time: record[0],
        used: record[1],
        values,
        changes,
    }
}

// Entries into a record from a place on.
fn write_entries(record: &mut [u32], from: usize, entries: [u32; 24])
    requires { from + 24 ≤ length «record».old }
    ensures { «record».new ≡ take from «record».old ++ entries ++ drop (from + 24) «record».old }
{
    record[from..from + 24].copy_from_slice(&entries);
}

// The column of a record.
fn write_record(record: &mut [u32], r: Run)
    requires { length «record».old ≡ 50 }
    ensures { «record».new ≡ record_column r }
{
    let values = r.values;
    let changes = r.changes;
    record[0] = r.time;
    record[1] = r.used;
    write_entries(record, 2, values);
    write_entries(record, 26, changes);
}

// Hands an answer's record to the caller; a refusal leaves it as it was.
fn give_run(went: Result<Run, Refusal>, record: &mut [u32]) -> u32
    requires { length «record».old ≡ 50 }
    ensures { (result ≡ result_number went) × («record».new ≡ column_after_reply «record».old went) }
{
    match went {
        Ok(run) => {
            write_record(record, run);
            0
        }
        Err(why) => u32::from(why),
    }
}

// A task on a cell file and a record.
fn task_on(
    file: &[u8],
    task: Task,
    letter: &mut [u32],
    low: &mut [u32],
    high: &mut [u32],
    record: &mut [u32],
    work_letter: &mut [u32],
    work_low: &mut [u32],
    work_high: &mut [u32],
) -> u32
    ensures { TaskDone (columns letter.old low.old high.old) (columns letter.new low.new high.new) «record».old «record».new (columns work_letter.old work_low.old work_high.old) (columns work_letter.new work_low.new work_high.new) (task_answer file.now task (columns letter.old low.old high.old) «record».old (columns work_letter.old work_low.old work_high.old)) result }
{
    if record.len() != RECORD {
        return u32::from(Refusal::Buffer);
    }
    let r = read_record(record);
    let went = on_file(
        file,
        task,
        letter,
        low,
        high,
        r,
        work_letter,
        work_low,
        work_high,
    );
    give_run(went, record)
}

// Starts a run in a table with `used` entries; what the record held is ignored.
pub fn sts_start(
    file: &[u8],
    letter: &mut [u32],
    low: &mut [u32],
    high: &mut [u32],
    used: u32,
    record: &mut [u32],
    work_letter: &mut [u32],
    work_low: &mut [u32],
    work_high: &mut [u32],
) -> u32
    ensures { TaskDone (columns letter.old low.old high.old) (columns letter.new low.new high.new) «record».old «record».new (columns work_letter.old work_low.old work_high.old) (columns work_letter.new work_low.new work_high.new) (task_answer file.now (Start used) (columns letter.old low.old high.old) «record».old (columns work_letter.old work_low.old work_high.old)) result }
{
    task_on(
        file,
        Task::Start(used),
        letter,
        low,
        high,
        record,
        work_letter,
        work_low,
        work_high,
    )
}

// One step, to the earliest time over all patterns.
pub fn sts_step(
    file: &[u8],
    letter: &mut [u32],
    low: &mut [u32],
    high: &mut [u32],
    record: &mut [u32],
    work_letter: &mut [u32],
    work_low: &mut [u32],
    work_high: &mut [u32],
) -> u32
    ensures { TaskDone (columns letter.old low.old high.old) (columns letter.new low.new high.new) «record».old «record».new (columns work_letter.old work_low.old work_high.old) (columns work_letter.new work_low.new work_high.new) (task_answer file.now Step (columns letter.old low.old high.old) «record».old (columns work_letter.old work_low.old work_high.old)) result }
{
    task_on(
        file,
        Task::Step,
        letter,
        low,
        high,
        record,
        work_letter,
        work_low,
        work_high,
    )
}

// Every step not later than `until`.
pub fn sts_run(
    file: &[u8],
    until: u32,
    letter: &mut [u32],
    low: &mut [u32],
    high: &mut [u32],
    record: &mut [u32],
    work_letter: &mut [u32],
    work_low: &mut [u32],
    work_high: &mut [u32],
) -> u32
    ensures { TaskDone (columns letter.old low.old high.old) (columns letter.new low.new high.new) «record».old «record».new (columns work_letter.old work_low.old work_high.old) (columns work_letter.new work_low.new work_high.new) (task_answer file.now (Until until) (columns letter.old low.old high.old) «record».old (columns work_letter.old work_low.old work_high.old)) result }
{
    task_on(
        file,
        Task::Until(until),
        letter,
        low,
        high,
        record,
        work_letter,
        work_low,
        work_high,
    )
}

// Hands a question's answer to the caller; a refusal leaves it as it was.
fn give_told(a: Result<Wire, Refusal>, answer: &mut [u32]) -> u32
    requires { length answer.old ≡ 2 }
    ensures { (result ≡ result_number a) × (answer.new ≡ told_after_reply answer.old a) }
{
    match a {
        Ok(wire) => {
            answer[0] = wire.value;
            answer[1] = wire.change;
            0
        }
        Err(why) => u32::from(why),
    }
}

// The value and the next change of a node at a pattern.
pub fn sts_ask(
    file: &[u8],
    letter: &[u32],
    low: &[u32],
    high: &[u32],
    record: &[u32],
    node: u32,
    pattern: u32,
    answer: &mut [u32],
) -> u32
    ensures { AskDone answer.old answer.new (ask_answer file.now (columns letter.now low.now high.now) «record».now node pattern answer.old) result }
{
    if record.len() != RECORD {
        return u32::from(Refusal::Buffer);
    }
    if answer.len() != TOLD {
        return u32::from(Refusal::Buffer);
    }
    let r = read_record(record);
    let a = ask_file(file, letter, low, high, r, node, pattern);
    give_told(a, answer)
}
