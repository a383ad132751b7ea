// The calls that the layout editor makes from C: numbers, bytes and lent columns (document 01, "Numbers given to the editor").
// Promise: each call has no condition; its number and every lent column afterwards are those of a definition in specs/.
// Thin: the work is done by the crates below. include/sts.h documents the calls for C.
#![tactic(auto)]

pub mod inplace;
pub mod runs;
pub mod saves;
pub mod tables;

ghost use Rattle.std.specs.Prelude.{◌≡◌, [], ◌∷◌, ◌^◌, ◌<◌, length};
ghost use Rattle.refusal.specs.Answer.{answer_number};
ghost use Rattle.editor.specs.Read.{read_call, header_after};

use cell::Cell;
use format::Header;
use refusal::Refusal;

// The numbers N, M, E, K and H.
fn write_header(header: &mut [u32], h: Header)
    requires { (length header.old ≡ 5) × (h.horizon.0 < 2 ^ 32) }
    ensures { header.new ≡ h.nodes ∷ h.transistors ∷ h.entries ∷ h.letters ∷ h.horizon.0 ∷ [] }
{
    header[0] = h.nodes;
    header[1] = h.transistors;
    header[2] = h.entries;
    header[3] = h.letters;
    header[4] = h.horizon.0 as u32;
}

// Reads a cell file: 0 and the header's five numbers N, M, E, K, H, or the refusal's number and nothing else.
pub fn sts_read(file: &[u8], header: &mut [u32]) -> u32
    ensures value { result ≡ answer_number (read_call file.now header.old) }
    ensures header_after { header.new ≡ header_after header.old (read_call file.now header.old) }
{
    if header.len() != 5 {
        return u32::from(Refusal::Buffer);
    }
    match Cell::read(file) {
        Ok(cell) => {
            write_header(header, cell.header);
            0
        }
        Err(why) => u32::from(why),
    }
}
