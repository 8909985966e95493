// Whether a filter that is filled from the wanted columns of the plain layout serves every allowed layout. It does if the gates are closed
// under each layout, and the hash does not change when a layout renames wires.
ghost use Rattle.std.specs.Prelude.{◌≡◌, true, ℕ, ◌+◌, ◌<◌, length, get_or};
ghost use Rattle.gate.specs.Gates.{lawful};
ghost use Rattle.table.specs.layouts.Layouts.{Width};
ghost use Rattle.reach_filter.specs.mirrors.Mirrors.{wire_at};
ghost use Rattle.reach_filter.specs.fill.Sieve.{Suits, Sound};

use crate::mirrors;
use bloom::hash;
use bloom::hash::Reach;
use table::layouts;

// Whether each wire has the same factor as the wire that layout `p` renames it to.
fn even(factors: [u32; 5], n: usize, p: u8) -> bool
    requires { Width n }
    ensures { result ≡ true → (w : ℕ) → w < 5 → get_or factors (wire_at n p w) 0 ≡ get_or factors w 0 }
{
    (0..5).all(|w| hash::word_at(factors, mirrors::wire_at(n, p, w)) == hash::word_at(factors, w))
}

// Whether the gates and the factors suit layout `p`.
fn suits(gates: &[u8], factors: [u32; 5], n: usize, p: u8) -> bool
    requires width { Width n }
    requires by_index { (i : ℕ) → i < length gates.now → lawful 3 (n + 1) (get_or gates.now i 0) ≡ true }
    ensures { result ≡ true → Suits gates.now factors n p }
{
    mirrors::all_mirrored(gates, n, p) && even(factors, n, p)
}

// Whether the gates and the factors suit every allowed layout: tested, not assumed.
pub fn sound(gates: &[u8], reach: Reach, n: usize, free: usize) -> bool
    requires { Width n }
    ensures { result ≡ true → Sound gates.now reach n free }
{
    mirrors::all_lawful(gates, n)
        && (0..layouts::layout_count(n, free)).all(|i| {
            let p = layouts::layout_at(n, free, i);
            suits(gates, reach.factors, n, p)
        })
}
