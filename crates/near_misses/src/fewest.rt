// A lower bound on the wanted bits that a list misses once it goes on by at most so many gates, from the columns of today.
ghost use Rattle.std.specs.Prelude.{◌≡◌, List, ◌∷◌, ℕ, ◌+◌, ◌≤◌, ◌<◌, eqb, get_or};
ghost use Rattle.std.specs.List.{AllWithin};
ghost use Rattle.logic.specs.Rules.{pick};
ghost use Rattle.near_misses.specs.misses.Columns.{missed_by, least_of, least_missed, least_left, lefts, AtMost, missed_at_least};

use crate::misses;
use columns::Wanted;

// How many wanted bits of output `j` the last data wire misses: wire 3 of four, wire 2 of three.
fn on_last(t: Wanted, columns: [u16; 5], n: usize, j: usize) -> usize
    ensures { result ≡ pick (eqb n 4) (missed_by t (get_or columns 3 0) j) (missed_by t (get_or columns 2 0) j) }
{
    if n == 4 {
        misses::missed_by(t, columns[3], j)
    } else {
        misses::missed_by(t, columns[2], j)
    }
}

// How many wanted bits of output `j` are missed at least, on whichever data wire it is.
fn least_free(t: Wanted, columns: [u16; 5], n: usize, j: usize) -> usize
    ensures value { result ≡ least_of n (λ w. missed_by t (get_or columns w 0) j) }
    ensures upper_bound { result ≤ 16 }
{
    let low = misses::missed_by(t, columns[0], j).min(misses::missed_by(t, columns[1], j));
    low.min(misses::missed_by(t, columns[2], j).min(on_last(t, columns, n, j)))
}

// How many wanted bits of output `j` are missed at least, on the wires that allowed layouts give it: any data wire where layouts are free,
// else wire `j`.
#[tactic(auto, unfolding(crate::specs::misses::Columns::least_missed))]
fn least_missed(t: Wanted, columns: [u16; 5], n: usize, free: usize, j: usize) -> usize
    ensures value { result ≡ least_missed t columns n free j }
    ensures upper_bound { result ≤ 16 }
{
    if free == 1 {
        least_free(t, columns, n, j)
    } else {
        misses::missed_by(t, logic::cell(columns, j), j)
    }
}

// How many wanted bits of the fourth output are missed at least; 0 where there are three outputs.
fn least_last(t: Wanted, columns: [u16; 5], n: usize, free: usize) -> usize
    ensures value { result ≡ pick (eqb n 4) (least_missed t columns n free 3) 0 }
    ensures upper_bound { result ≤ 16 }
{
    if n == 4 {
        least_missed(t, columns, n, free, 3)
    } else {
        0
    }
}

// The least sums of some numbers and one more, `m`: entry `i` once up to `i` of them are left out, from those without `m`.
fn with_one(m: usize, least: [usize; 4]) -> [usize; 4]
    requires m_bound { m ≤ 16 }
    requires least_bound { AtMost 48 least }
    ensures value { (xs : List ℕ) → least ≡ lefts xs → result ≡ lefts (m ∷ xs) }
    ensures upper_bound { (b : ℕ) → AtMost b least → AtMost (b + 16) result }
{
    let [none, one, two, three] = least;
    [
        m + none,
        (m + one).min(none),
        (m + two).min(one),
        (m + three).min(two),
    ]
}

// The least sum of four numbers once up to `r` of them are left out. All four sums are kept up, without a branch: a recursion over the
// numbers takes twice the time of a search.
fn least_left(missed: [usize; 4], r: usize) -> usize
    requires r_bound { r < 4 }
    requires each { AllWithin (λ m. m ≤ 16) missed 0 4 }
    ensures { result ≡ least_left missed r }
{
    let mut least = [0; 4];
    for i in (0..4).rev() {
        least = with_one(missed[i], least);
    }
    least[r]
}

// How many wanted bits are missed at least after up to `r` more gates. Each gate changes one wire, so all outputs but `r` are still on a
// column of today; with a gate for each output nothing need be missed.
pub fn missed_at_least(t: Wanted, columns: [u16; 5], n: usize, free: usize, r: usize) -> usize
    ensures { result ≡ missed_at_least t columns n free r }
{
    if 4 <= r {
        return 0;
    }
    let missed = [
        least_last(t, columns, n, free),
        least_missed(t, columns, n, free, 2),
        least_missed(t, columns, n, free, 1),
        least_missed(t, columns, n, free, 0),
    ];
    least_left(missed, r)
}
