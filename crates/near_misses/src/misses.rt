// How many wanted bits of a table the columns of the wires miss: for one output, and under a layout.
ghost use Rattle.std.specs.Prelude.{◌≡◌, ◌+◌, ◌≤◌, ◌<◌};
ghost use Rattle.near_misses.specs.misses.Columns.{missed_by, missed_for, missed_on, nearly};

use columns::Wanted;

// How many wanted bits of output `j` a column misses.
#[tactic(auto, unfolding(crate::specs::misses::Columns::missed_by))]
pub fn missed_by(t: Wanted, column: u16, j: usize) -> usize
    ensures value { result ≡ missed_by t column j }
    ensures upper_bound { result ≤ 16 }
{
    columns::misses(t, column, j).count_ones() as usize
}

// How many wanted bits of output `j` are missed on the wire that layout `p` gives it.
fn missed_for(t: Wanted, columns: [u16; 5], p: u8, j: usize) -> usize
    requires { j < 4 }
    ensures value { result ≡ missed_for t columns p j }
    ensures upper_bound { result ≤ 16 }
{
    let wire = (usize::from(p) >> (6 - 2 * j)) % 4;
    missed_by(t, columns[wire], j)
}

// How many wanted bits the columns miss under layout `p`, of all outputs. Written out: of a chain's sum the check does not see that it fits.
#[tactic(auto, unfolding(crate::specs::misses::Columns::missed_on))]
fn missed_on(t: Wanted, columns: [u16; 5], p: u8) -> usize
    ensures { result ≡ missed_on t columns p }
{
    missed_for(t, columns, p, 0)
        + missed_for(t, columns, p, 1)
        + missed_for(t, columns, p, 2)
        + missed_for(t, columns, p, 3)
}

// Whether the columns miss at most `k` wanted bits under layout `p`, and the ancilla, wire `n`, is 0 in every row.
#[tactic(auto, unfolding(crate::specs::misses::Columns::nearly))]
pub fn nearly(t: Wanted, n: usize, k: usize, columns: [u16; 5], p: u8) -> bool
    ensures { result ≡ nearly t n k columns p }
{
    missed_on(t, columns, p) <= k && columns::tidy(n, columns)
}
