// The calls that the layout editor makes from C, as exports of a static library: each is the function of the same name of crate editor,
// with its contract. include/sts.h declares them.
#![tactic(auto)]

ghost use Rattle.std.specs.Prelude.{◌≡◌, length};
ghost use Rattle.refusal.specs.Answer.{answer_number};
ghost use Rattle.editor.specs.Read.{read_call, header_after};
ghost use Rattle.format.specs.Saved.{save_file};
ghost use Rattle.catalog.specs.Small.{small_file};
ghost use Rattle.editor.specs.Functions.{FreshCall, StoredCall, ToldCall};
ghost use Rattle.editor.specs.Saves.{SaveCall};
ghost use Rattle.diagram.specs.declared.Operation.TheVariants.{Smaller, Sum};
ghost use Rattle.diagram.specs.Call.{columns, fresh_call, apply_call, choose_call, fix_call, number_call, count_call};
ghost use Rattle.advance.specs.declared.Task.TheVariants.{Start, Step, Until};
ghost use Rattle.editor.specs.Runs.{task_answer, TaskDone, ask_answer, AskDone, AdvanceDone};
ghost use Rattle.format.specs.File.{read_cell};
ghost use Rattle.advance.specs.Task.{task_call};

use record::Run;

// Reads a cell file: 0 and the header's five numbers N, M, E, K, H, or the refusal's number and nothing else.
#[unsafe(no_mangle)]
pub extern "C" fn sts_read(file: &[u8], header: &mut [u32]) -> u32
    ensures value { result ≡ answer_number (read_call file.now header.old) }
    ensures header_after { header.new ≡ header_after header.old (read_call file.now header.old) }
{
    editor::sts_read(file, header)
}

// Writes the cell of a file in its saved form: 0, the bytes and their length, or the refusal's number and nothing else.
#[unsafe(no_mangle)]
pub extern "C" fn sts_save(file: &[u8], out: &mut [u8], told: &mut u32) -> u32
    ensures { SaveCall out.old out.new told.old told.new (save_file (length out.old) file.now) result }
{
    editor::saves::sts_save(file, out, told)
}

// Writes the file of the small cell at a place: 0, the bytes and their length, or the refusal's number and nothing else.
#[unsafe(no_mangle)]
pub extern "C" fn sts_small(place: u32, out: &mut [u8], told: &mut u32) -> u32
    ensures { SaveCall out.old out.new told.old told.new (small_file (length out.old) place) result }
{
    editor::saves::sts_small(place, out, told)
}

// A fresh table: three terminals, then zeros.
#[unsafe(no_mangle)]
pub extern "C" fn sts_fresh(letter: &mut [u32], low: &mut [u32], high: &mut [u32]) -> u32
    ensures { FreshCall (columns letter.old low.old high.old) (columns letter.new low.new high.new) (fresh_call (columns letter.old low.old high.old)) result }
{
    editor::tables::sts_fresh(letter, low, high)
}

// The first function where the selector is 1, else the second.
#[unsafe(no_mangle)]
pub extern "C" fn sts_choose(
    k: u32,
    letter: &mut [u32],
    low: &mut [u32],
    high: &mut [u32],
    used: &mut u32,
    selector: u32,
    first: u32,
    second: u32,
    entry: &mut u32,
) -> u32
    ensures { StoredCall (columns letter.old low.old high.old) (columns letter.new low.new high.new) used.old used.new entry.old entry.new (choose_call k (columns letter.old low.old high.old) used.old selector first second) result }
{
    editor::tables::sts_choose(k, letter, low, high, used, selector, first, second, entry)
}

// The smaller of two functions.
#[unsafe(no_mangle)]
pub extern "C" fn sts_smaller(
    k: u32,
    letter: &mut [u32],
    low: &mut [u32],
    high: &mut [u32],
    used: &mut u32,
    first: u32,
    second: u32,
    entry: &mut u32,
) -> u32
    ensures { StoredCall (columns letter.old low.old high.old) (columns letter.new low.new high.new) used.old used.new entry.old entry.new (apply_call Smaller k (columns letter.old low.old high.old) used.old first second) result }
{
    editor::tables::sts_smaller(k, letter, low, high, used, first, second, entry)
}

// The sum of two functions: never where either is, else at most 4,294,967,294.
#[unsafe(no_mangle)]
pub extern "C" fn sts_sum(
    k: u32,
    letter: &mut [u32],
    low: &mut [u32],
    high: &mut [u32],
    used: &mut u32,
    first: u32,
    second: u32,
    entry: &mut u32,
) -> u32
    ensures { StoredCall (columns letter.old low.old high.old) (columns letter.new low.new high.new) used.old used.new entry.old entry.new (apply_call Sum k (columns letter.old low.old high.old) used.old first second) result }
{
    editor::tables::sts_sum(k, letter, low, high, used, first, second, entry)
}

// A function with a letter at 0 or 1.
#[unsafe(no_mangle)]
pub extern "C" fn sts_fix(
    k: u32,
    letter: &mut [u32],
    low: &mut [u32],
    high: &mut [u32],
    used: &mut u32,
    function: u32,
    letter_number: u32,
    bit: u32,
    entry: &mut u32,
) -> u32
    ensures { StoredCall (columns letter.old low.old high.old) (columns letter.new low.new high.new) used.old used.new entry.old entry.new (fix_call k (columns letter.old low.old high.old) used.old function letter_number bit) result }
{
    editor::tables::sts_fix(
        k,
        letter,
        low,
        high,
        used,
        function,
        letter_number,
        bit,
        entry,
    )
}

// The number of a function at a pattern.
#[unsafe(no_mangle)]
pub extern "C" fn sts_number(
    k: u32,
    letter: &[u32],
    low: &[u32],
    high: &[u32],
    used: u32,
    function: u32,
    pattern: u32,
    number: &mut u32,
) -> u32
    ensures { ToldCall number.old number.new (number_call k (columns letter.now low.now high.now) used function pattern) result }
{
    editor::tables::sts_number(k, letter, low, high, used, function, pattern, number)
}

// The count of the patterns at which a function is 1.
#[unsafe(no_mangle)]
pub extern "C" fn sts_count(
    k: u32,
    letter: &[u32],
    low: &[u32],
    high: &[u32],
    used: u32,
    function: u32,
    count: &mut u32,
) -> u32
    ensures { ToldCall count.old count.new (count_call k (columns letter.now low.now high.now) used function) result }
{
    editor::tables::sts_count(k, letter, low, high, used, function, count)
}

// Starts a run in a table with `used` entries; what the record held is ignored.
#[unsafe(no_mangle)]
pub extern "C" fn sts_start(
    file: &[u8],
    letter: &mut [u32],
    low: &mut [u32],
    high: &mut [u32],
    used: u32,
    record: &mut [u32],
    work_letter: &mut [u32],
    work_low: &mut [u32],
    work_high: &mut [u32],
) -> u32
    ensures { TaskDone (columns letter.old low.old high.old) (columns letter.new low.new high.new) «record».old «record».new (columns work_letter.old work_low.old work_high.old) (columns work_letter.new work_low.new work_high.new) (task_answer file.now (Start used) (columns letter.old low.old high.old) «record».old (columns work_letter.old work_low.old work_high.old)) result }
{
    editor::runs::sts_start(
        file,
        letter,
        low,
        high,
        used,
        record,
        work_letter,
        work_low,
        work_high,
    )
}

// One step, to the earliest time over all patterns.
#[unsafe(no_mangle)]
pub extern "C" fn sts_step(
    file: &[u8],
    letter: &mut [u32],
    low: &mut [u32],
    high: &mut [u32],
    record: &mut [u32],
    work_letter: &mut [u32],
    work_low: &mut [u32],
    work_high: &mut [u32],
) -> u32
    ensures { TaskDone (columns letter.old low.old high.old) (columns letter.new low.new high.new) «record».old «record».new (columns work_letter.old work_low.old work_high.old) (columns work_letter.new work_low.new work_high.new) (task_answer file.now Step (columns letter.old low.old high.old) «record».old (columns work_letter.old work_low.old work_high.old)) result }
{
    editor::runs::sts_step(
        file,
        letter,
        low,
        high,
        record,
        work_letter,
        work_low,
        work_high,
    )
}

// Every step not later than `until`.
#[unsafe(no_mangle)]
pub extern "C" fn sts_run(
    file: &[u8],
    until: u32,
    letter: &mut [u32],
    low: &mut [u32],
    high: &mut [u32],
    record: &mut [u32],
    work_letter: &mut [u32],
    work_low: &mut [u32],
    work_high: &mut [u32],
) -> u32
    ensures { TaskDone (columns letter.old low.old high.old) (columns letter.new low.new high.new) «record».old «record».new (columns work_letter.old work_low.old work_high.old) (columns work_letter.new work_low.new work_high.new) (task_answer file.now (Until until) (columns letter.old low.old high.old) «record».old (columns work_letter.old work_low.old work_high.old)) result }
{
    editor::runs::sts_run(
        file,
        until,
        letter,
        low,
        high,
        record,
        work_letter,
        work_low,
        work_high,
    )
}

// The value and the next change of a node at a pattern.
#[unsafe(no_mangle)]
pub extern "C" fn sts_ask(
    file: &[u8],
    letter: &[u32],
    low: &[u32],
    high: &[u32],
    record: &[u32],
    node: u32,
    pattern: u32,
    answer: &mut [u32],
) -> u32
    ensures { AskDone answer.old answer.new (ask_answer file.now (columns letter.now low.now high.now) «record».now node pattern answer.old) result }
{
    editor::runs::sts_ask(file, letter, low, high, record, node, pattern, answer)
}

// One step on the record behind `run`, which changes with an answer alone.
#[unsafe(no_mangle)]
pub extern "C" fn sts_advance(
    file: &[u8],
    letter: &mut [u32],
    low: &mut [u32],
    high: &mut [u32],
    run: &mut Run,
    work_letter: &mut [u32],
    work_low: &mut [u32],
    work_high: &mut [u32],
) -> u32
    ensures { AdvanceDone (columns letter.old low.old high.old) (columns letter.new low.new high.new) run.old run.new (columns work_letter.old work_low.old work_high.old) (columns work_letter.new work_low.new work_high.new) (task_call (read_cell file.now) Step (columns letter.old low.old high.old) run.old (columns work_letter.old work_low.old work_high.old)) result }
{
    editor::inplace::sts_advance(
        file,
        letter,
        low,
        high,
        run,
        work_letter,
        work_low,
        work_high,
    )
}
