// The outputs that a state still misses, and which next gates can keep up with them. A gate changes only its target's column, so an output
// that is missed on every wire takes a gate of its own. So does the ancilla if it is not 0.
#![tactic(auto)]

pub mod plan; // what a state says of the next gates on each target, worked out once for each node
pub mod product_step; // what a gate does to the columns, read from the product table
pub mod product_table; // the products of all control masks in one table
pub mod products; // the products of at most two columns, and those of three
pub mod worth; // whether a gate is worth a try

ghost use Rattle.std.specs.Prelude.{◌≡◌, ℕ, ◌+◌, ◌≤◌, eqb, get_or, List};
ghost use Rattle.logic.specs.Rules.{pick, bit, all_below};
ghost use Rattle.table.specs.layouts.Layouts.{Width};
ghost use Rattle.columns.specs.declared.Wanted.{Wanted};
ghost use Rattle.columns.specs.Wanted.{fitting, dirt};
ghost use Rattle.outputs.specs.Owed.{missed, owed};

use columns::Wanted;

// Whether a column has every wanted bit of output `j`.
pub fn fits(t: Wanted, column: u16, j: usize) -> bool
    ensures { result ≡ fitting t column j }
{
    columns::misses(t, column, j) == 0
}

// The rows in which the ancilla, wire `n`, is not 0: the dirt of a state. Its column is read by a constant index, so that the compiler can
// keep the columns in registers.
pub fn spilt(n: usize, columns: [u16; 5]) -> u16
    requires { Width n }
    ensures { result ≡ dirt n (get_or columns n 0) }
{
    if n == 3 {
        columns::dirt(3, columns[3])
    } else {
        columns::dirt(4, columns[4])
    }
}

// 1 if a column misses a wanted bit of output `j`, else 0.
fn misses_one(t: Wanted, column: u16, j: usize) -> u16
    ensures by_index { (cs : List ℕ) (w : ℕ) → column ≡ get_or cs w 0 → result ≡ bit (missed t cs w j) }
    ensures upper_bound { result ≤ 1 }
{
    u16::from(!fits(t, column, j))
}

// 1 if every data wire misses output `j`, else 0.
fn nowhere(t: Wanted, columns: [u16; 5], n: usize, j: usize) -> u16
    requires { Width n }
    ensures value { result ≡ bit (all_below n (λ w. missed t columns w j)) }
    ensures upper_bound { result ≤ 1 }
{
    logic::picked(n == 4, misses_one(t, columns[3], j), 1)
        & (misses_one(t, columns[2], j)
            & (misses_one(t, columns[1], j) & misses_one(t, columns[0], j)))
}

// The sum of four bits, the last of which counts only if there are four outputs.
fn sum(n: usize, a: u16, b: u16, c: u16, d: u16) -> usize
    requires { (a ≤ 1) × ((b ≤ 1) × ((c ≤ 1) × (d ≤ 1))) }
    ensures { result ≡ pick (eqb n 4) d 0 + (c + (b + a)) }
{
    usize::from(logic::picked(n == 4, d, 0) + (c + (b + a)))
}

// How many outputs are missed on every wire that an allowed layout may give them. The four outputs are written out, for speed: constant
// indices let the compiler keep the columns in registers.
pub fn missing(t: Wanted, columns: [u16; 5], n: usize, free: usize) -> usize
    requires { Width n }
    ensures value { result ≡ owed t columns n free 4 }
    ensures upper_bound { result ≤ 4 }
{
    if free == 1 {
        sum(
            n,
            nowhere(t, columns, n, 0),
            nowhere(t, columns, n, 1),
            nowhere(t, columns, n, 2),
            nowhere(t, columns, n, 3),
        )
    } else {
        sum(
            n,
            misses_one(t, columns[0], 0),
            misses_one(t, columns[1], 1),
            misses_one(t, columns[2], 2),
            misses_one(t, columns[3], 3),
        )
    }
}
