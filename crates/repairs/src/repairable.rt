// Whether some next gate mends an output or cleans the ancilla.
ghost use Rattle.std.specs.Prelude.{◌≡◌, true, false, not, List, [], ◌∷◌, ℕ, ◌≤◌, ◌<◌, eqb, get_or};
ghost use Rattle.logic.specs.Rules.{both, bit};
ghost use Rattle.table.specs.layouts.Layouts.{Width};
ghost use Rattle.columns.specs.Wanted.{dirt};
ghost use Rattle.outputs.specs.Owed.{adds, mendable, cleanable, fixable};
ghost use Rattle.outputs.specs.products.Products.{part, products_of};
ghost use Rattle.repairs.specs.matches.Inner.{fixes_on};

use crate::matches;
use columns::Wanted;
use outputs::products;

// Whether some product of at most two columns mends an output on a wire that a layout may give it: 1 or 0. One function for both kinds of
// layout, so that the compiler inlines it.
pub fn mendable(t: Wanted, columns: [u16; 5], n: usize, free: usize) -> u16
    requires { Width n }
    ensures { result ≡ bit (mendable (part false) t columns n free) }
{
    let ps = products::products(columns);
    if free == 1 {
        logic::picked(n == 4, matches::wire_hits(false, t, columns, ps, n, 3), 0)
            | (matches::wire_hits(false, t, columns, ps, n, 2)
                | (matches::wire_hits(false, t, columns, ps, n, 1)
                    | matches::wire_hits(false, t, columns, ps, n, 0)))
    } else {
        let care = t.care;
        let last = logic::picked(n == 4, columns::misses(t, columns[3], 3), 0);
        matches::hits(
            ps,
            matches::lack_of(
                matches::others(false, 0),
                care[0],
                columns::misses(t, columns[0], 0),
            ),
            matches::lack_of(
                matches::others(false, 1),
                care[1],
                columns::misses(t, columns[1], 1),
            ),
            matches::lack_of(
                matches::others(false, 2),
                care[2],
                columns::misses(t, columns[2], 2),
            ),
            matches::lack_of(matches::others(false, 3), care[3], last),
        )
    }
}

// 1 if some product that a gate on wire `w` may add is what is wanted in the rows that care, and anything is; else 0.
fn one_hit(wide: bool, ps: [u16; 16], w: usize, care: u16, want: u16) -> u16
    requires { w < 5 }
    ensures { (cs : List ℕ) → ps ≡ products_of 3 wide cs → result ≡ bit (both (not (eqb want 0)) (adds (part wide) cs w care want)) }
{
    let none = matches::lack_of(0, 0, 0);
    matches::hits(
        ps,
        matches::lack_of(matches::others(wide, w), care, want),
        none,
        none,
        none,
    )
}

// Whether the ancilla is dirty in some rows, `spilt`, and some product of at most two columns cleans it.
pub fn cleanable(n: usize, columns: [u16; 5], spilt: u16) -> bool
    requires width { Width n }
    requires spilt_value { spilt ≡ dirt n (get_or columns n 0) }
    ensures { result ≡ cleanable (part false) columns n }
{
    if spilt == 0 {
        return false;
    }
    let ps = products::products(columns);
    one_hit(false, ps, n, columns::all_rows(n), spilt) == 1
}

// 1 if some product of three columns mends an output on wire `w`, or cleans the ancilla if that is `w`; else 0. The columns come one by
// one: passed as an array or in a struct they would be kept in memory at every node, though few nodes ask this.
fn wide_hits(
    t: Wanted,
    a: u16,
    b: u16,
    c: u16,
    d: u16,
    e: u16,
    n: usize,
    free: usize,
    w: usize,
) -> u16
    requires width { Width n }
    requires w_le_n { w ≤ n }
    ensures { result ≡ bit (fixes_on (part true) t (a ∷ b ∷ c ∷ d ∷ e ∷ []) n free w) }
{
    let columns = [a, b, c, d, e];
    let ps = products::triples(columns);
    if n == w {
        let spilt = columns::dirt(n, columns[n]);
        one_hit(true, ps, n, columns::all_rows(n), spilt)
    } else if free == 1 {
        matches::wire_hits(true, t, columns, ps, n, w)
    } else {
        one_hit(true, ps, w, t.care[w], columns::misses(t, columns[w], w))
    }
}

// Whether some product of three columns mends an output or cleans the ancilla.
pub fn wide_fixable(t: Wanted, columns: [u16; 5], n: usize, free: usize) -> bool
    requires { Width n }
    ensures { result ≡ fixable (part true) t columns n free }
{
    let [a, b, c, d, e] = columns;
    wide_hits(t, a, b, c, d, e, n, free, n)
        | (logic::picked(n == 4, wide_hits(t, a, b, c, d, e, n, free, 3), 0)
            | (wide_hits(t, a, b, c, d, e, n, free, 2)
                | (wide_hits(t, a, b, c, d, e, n, free, 1)
                    | wide_hits(t, a, b, c, d, e, n, free, 0))))
        == 1
}
