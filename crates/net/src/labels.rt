// Labels of the 26 nodes, in a column from a place on: nodes that are joined have one label.
ghost use Rattle.std.specs.Prelude.{ℕ, ◌+◌, ◌<◌, ◌≤◌, length};
ghost use Rattle.net.specs.Net.{at as at_place};
ghost use Rattle.net.specs.Written.{Row, relabelled};

// At first each node's label is its number.
pub fn start(column: &mut [u32], place: usize)
    requires { place + 26 ≤ length column.old }
    ensures { Row place 26 (λ (n : ℕ). n) column.old column.new }
{
    for n in 0..26u32 {
        column[place + n as usize] = n;
    }
}

fn relabel(column: &mut [u32], place: usize, old: u32, new: u32)
    requires { place + 26 ≤ length column.old }
    ensures { Row place 26 (relabelled column.old place old new) column.old column.new }
{
    for n in 0..26 {
        if column[place + n] == old {
            column[place + n] = new;
        }
    }
}

// Nodes a and b joined, with all that was joined to either.
pub fn join(column: &mut [u32], place: usize, a: u32, b: u32)
    requires { (place + 26 ≤ length column.old) × (a < 26) × (b < 26) }
    ensures { Row place 26 (relabelled column.old place (at_place column.old (place + b)) (at_place column.old (place + a))) column.old column.new }
{
    let new = column[place + a as usize];
    let old = column[place + b as usize];
    relabel(column, place, old, new);
}
