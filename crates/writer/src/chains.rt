// The records of each chain, in its order.
ghost use Rattle.std.specs.Prelude.{◌+◌, ◌^◌, ◌<◌, ◌≤◌, length};
ghost use Rattle.format.specs.File.{record_at};
ghost use Rattle.format.specs.Saved.{chain_bytes};
ghost use Rattle.text.specs.Written.{Wrote};
ghost use Rattle.cell.specs.Value.{firsts};

use crate::layout::{SavedRecord, first_from};
use text::put_bytes;

// The first count records, numbered from r on.
pub fn put_chain<R: SavedRecord, const N: usize>(
    out: &mut [u8],
    at: usize,
    r: u32,
    records: [R; N],
    count: u32,
) -> usize
    requires { (count ≤ N) × (r + count < 2 ^ 32) × (at + record_at count ≤ length out.old) }
    ensures { Wrote out.old out.new at (chain_bytes R.bytes r (firsts count R.NONE records)) result }
{
    let mut end = at;
    for i in 0..count {
        let next = first_from(r + i + 1, count - i - 1);
        let bytes = records[i as usize].bytes(next);
        end = put_bytes(out, end, &bytes);
    }
    end
}
