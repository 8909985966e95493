// Whether a gate is worth a try: whether what is left to do after it fits the gates that are left.
ghost use Rattle.std.specs.Prelude.{◌≡◌, true, List, ℕ, ◌<◌, length};
ghost use Rattle.gate.specs.Gates.{target_of, lawful};
ghost use Rattle.table.specs.layouts.Layouts.{Width};
ghost use Rattle.columns.specs.declared.Wanted.{Wanted};
ghost use Rattle.outputs.specs.Owed.{Controls, worth};
ghost use Rattle.outputs.specs.products.Products.{table_of};
ghost use Rattle.outputs.specs.plan.Plan.{plan_of};
ghost use Rattle.outputs.specs.worth.Inner.{has_output, has_in, has_one, mends_by};

use crate::plan::Plan;
use crate::product_step;
use columns::Wanted;

// Whether a column has every wanted bit of output `j`, read from the product table.
#[tactic(auto, unfolding(crate::specs::worth::Inner::has_output))]
fn has_output(table: &[u16], column: u16, j: usize) -> bool
    requires table_len { length table.now ≡ 40 }
    requires j_bound { j < 4 }
    ensures { result ≡ has_output table.now column j }
{
    (column ^ table[32 + j]) & table[36 + j] == 0
}

// Whether output `j` is in the set, and a column has every wanted bit of it; `&` and not `&&`, so that there is no branch.
fn has_in(table: &[u16], column: u16, set: u32, j: usize) -> bool
    requires table_len { length table.now ≡ 40 }
    requires j_bound { j < 4 }
    ensures { result ≡ has_in table.now column set j }
{
    ((set >> j) % 2 == 1) & has_output(table, column, j)
}

// Whether a column has every wanted bit of some output of the set. The four are written out, for speed: all are tested at once.
#[tactic(auto, unfolding(crate::specs::worth::Inner::has_one))]
fn has_one(table: &[u16], column: u16, set: u32) -> bool
    requires { length table.now ≡ 40 }
    ensures { result ≡ has_one table.now column set }
{
    has_in(table, column, set, 0)
        | has_in(table, column, set, 1)
        | has_in(table, column, set, 2)
        | has_in(table, column, set, 3)
}

// Whether the new column of the target `w` mends something: it has an output that all other wires miss, or `w` is the ancilla and it is 0.
#[tactic(auto, unfolding(crate::specs::worth::Inner::mends_by))]
fn mends(table: &[u16], set: u32, n: usize, free: usize, w: usize, column: u16) -> bool
    requires table_len { length table.now ≡ 40 }
    requires width { Width n }
    ensures { result ≡ mends_by table.now set n free w column }
{
    if n <= w {
        n == w && columns::dirt(n, column) == 0
    } else if free == 1 {
        has_one(table, column, set)
    } else {
        has_output(table, column, w)
    }
}

// Whether gate `g` may begin a list of at most `most` gates that realizes the table: fewer gates are due for its target, or just as many
// and it mends its target.
pub fn worth(table: &[u16], plan: Plan, n: usize, free: usize, g: u8, most: usize) -> bool
    requires table_len { length table.now ≡ 40 }
    requires g_bound { target_of g < 5 }
    requires width { Width n }
    ensures { (k : ℕ) (t : Wanted) (cs : List ℕ) → Controls k → lawful k 5 g ≡ true → length cs ≡ 5
        → table.now ≡ table_of k t cs → plan ≡ plan_of t cs n free → result ≡ worth t cs n free g most }
{
    let w = usize::from(g / 32);
    let size = ((plan.sizes >> (4 * w)) % 16) as usize;
    if size != most {
        return size < most;
    }
    let column = product_step::next_column(table, g);
    mends(table, (plan.sets >> (4 * w)) % 16, n, free, w, column)
}
