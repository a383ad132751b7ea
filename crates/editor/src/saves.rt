// The calls that write the file of a cell: of one that is saved, and of a small cell by its place.
ghost use Rattle.std.specs.Prelude.{length};
ghost use Rattle.format.specs.Saved.{save_file};
ghost use Rattle.catalog.specs.Small.{small_file};
ghost use Rattle.editor.specs.Saves.{SaveCall};

use crate::tables::give_number;
use catalog::save_small;
use writer::save_file;

// Writes the cell of a file in its saved form: 0, the bytes and their length, or the refusal's number and nothing else.
pub fn sts_save(file: &[u8], out: &mut [u8], told: &mut u32) -> u32
    ensures { SaveCall out.old out.new told.old told.new (save_file (length out.old) file.now) result }
{
    let saving = save_file(out, file);
    give_number(saving, told)
}

// Writes the file of the small cell at a place: 0, the bytes and their length, or the refusal's number and nothing else.
pub fn sts_small(place: u32, out: &mut [u8], told: &mut u32) -> u32
    ensures { SaveCall out.old out.new told.old told.new (small_file (length out.old) place) result }
{
    let saving = save_small(out, place);
    give_number(saving, told)
}
