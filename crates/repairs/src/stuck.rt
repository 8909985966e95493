// Whether a node is stuck, and so is pruned: it misses more than the gates that are left can mend, or just as much and no next gate mends
// an output or cleans the ancilla.
ghost use Rattle.std.specs.Prelude.{◌≡◌, true, false, ◌<◌};
ghost use Rattle.table.specs.layouts.Layouts.{Width};
ghost use Rattle.columns.specs.Wanted.{dirt};
ghost use Rattle.outputs.specs.Owed.{Controls, mendable, cleanable, stuck};

use crate::repairable;
use columns::Wanted;

// Whether the node is stuck: `most` gates are fewer than what is missed, or just as many and no next gate mends any of it. Then no list of
// at most `most` gates leads to the table. Products of three columns are tried last, and only if gates may have three controls.
pub fn stuck(
    controls: usize,
    t: Wanted,
    columns: [u16; 5],
    n: usize,
    free: usize,
    most: usize,
) -> bool
    requires { Controls controls × Width n }
    ensures { result ≡ stuck controls t columns n free most }
{
    let dirt = outputs::spilt(n, columns);
    let least = outputs::missing(t, columns, n, free) + usize::from(dirt != 0);
    if least != most {
        return most < least;
    }
    most != 0
        && !repairable::cleanable(n, columns, dirt)
        && repairable::mendable(t, columns, n, free) == 0
        && (controls == 2 || !repairable::wide_fixable(t, columns, n, free))
}
