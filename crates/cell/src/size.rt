// How many records and bytes the file of a cell has, by its header.
ghost use Rattle.std.specs.Prelude.{◌≡◌};
ghost use Rattle.format.specs.File.{record_count, stated_length};
ghost use Rattle.cell.specs.Counted.{Counted};

use format::Header;

pub const RECORD_SIZE: usize = 16;

pub fn record_count(header: Header) -> u32
    requires { Counted header }
    ensures { result ≡ record_count header }
{
    header.nodes + header.transistors + header.entries
}

pub fn stated_length(header: Header) -> usize
    requires { Counted header }
    ensures { result ≡ stated_length header }
{
    RECORD_SIZE * (1 + record_count(header) as usize)
}
