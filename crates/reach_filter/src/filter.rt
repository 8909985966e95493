// The filter of a search: its description, the test whether one filling serves every allowed layout, and the filling.
ghost use Rattle.std.specs.Prelude.{◌≡◌, ℕ};
ghost use Rattle.logic.specs.Rules.{pick};
ghost use Rattle.table.specs.layouts.Layouts.{Width};
ghost use Rattle.bloom.specs.hash.Reach.{Seen};
ghost use Rattle.reach_filter.specs.fill.Sieve.{Near, rows_of, aim_of, Sieve, emptied};

use crate::{fill, symmetric};
use bloom::hash::Reach;
use bloom::insert;
use bounds::span;
use columns::Wanted;

// The rows of the table that want every output.
#[tactic(auto, unfolding(crate::specs::fill::Sieve::rows_of))]
fn rows_of(t: Wanted, n: usize) -> u16
    ensures { result ≡ rows_of t n }
{
    span::full_rows(t, n) & columns::all_rows(n)
}

// A factor for each wire. With free layouts all data wires have the same one, so that the hash does not depend on their order.
fn factors_of(n: usize, free: usize) -> [u32; 5] {
    if free == 1 {
        if n == 3 {
            [2654435769, 2654435769, 2654435769, 3266489917, 668265263]
        } else {
            [2654435769, 2654435769, 2654435769, 2654435769, 668265263]
        }
    } else {
        [2654435769, 2246822519, 3266489917, 668265263, 374761393]
    }
}

// The description of a filter for a table.
fn reach_of(t: Wanted, n: usize, free: usize, radius: usize, size: u32) -> Reach
    ensures { (result.radius ≡ radius) × (result.rows ≡ rows_of t n) }
{
    Reach {
        radius,
        size,
        rows: rows_of(t, n),
        factors: factors_of(n, free),
    }
}

// Puts in every state within the radius of the wanted columns. `but` is 9, which is no wire: no gate has led to the wanted columns, so all
// their projections have to be put in. `note` does so first, since `fill` requires what leaves out `but` to be in.
fn fill_wanted(gates: &[u8], t: Wanted, n: usize, reach: Reach, bits: &mut [u64])
    ensures { Near (Seen bits.new reach) gates.now (aim_of t n) reach.radius }
{
    let columns = fill::aim_of(t, n);
    insert::note(reach, columns, 9, bits);
    fill::fill(gates, reach, columns, 9, reach.radius, bits);
}

// `reach` if the filter is good; if not, a filter of no bits, which rules nothing out: all states have the same place in it.
#[tactic(auto, unfolding(crate::specs::fill::Sieve::emptied))]
fn kept(good: bool, reach: Reach) -> Reach
    ensures { result ≡ pick good reach (emptied reach) }
{
    if good {
        reach
    } else {
        Reach {
            radius: 0,
            size: 0,
            ..reach
        }
    }
}

// Fills a filter of `size` bits for a table. It rules out no state from which the gates finish within its radius. If no row wants every
// output, or the gates are not closed under the allowed layouts, it rules out nothing at all.
pub fn filter_for(
    gates: &[u8],
    t: Wanted,
    n: usize,
    free: usize,
    radius: usize,
    size: u32,
    bits: &mut [u64],
) -> Reach
    requires { Width n }
    ensures { (k : ℕ) → Sieve bits.new result gates.now k t n free }
{
    let reach = reach_of(t, n, free, radius, size);
    let good = reach.rows != 0 && symmetric::sound(gates, reach, n, free);
    let used = kept(good, reach);
    fill_wanted(gates, t, n, used, bits);
    used
}
