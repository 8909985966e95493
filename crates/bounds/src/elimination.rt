// How many heavy gates the table still needs at least. A gate of at most one control adds nothing to the span of the columns and the column
// of ones, and a heavy gate adds one vector. So the outputs outside the span are counted, by Gaussian elimination, without a loop.
ghost use Rattle.std.specs.Prelude.{◌≡◌, [], ◌≤◌};
ghost use Rattle.bounds.specs.span.Span.{clear, reduced, rests, one, fresh, first, generators, needed};

use crate::span;
use columns::Wanted;

// `x` with `b` XORed in if that makes it less, which is so if `x` has a 1 where the highest 1 of `b` is.
fn clear(b: u16, x: u16) -> u16
    ensures { result ≡ clear b x }
{
    let y = x ^ b;
    if y < x { y } else { x }
}

// `x` with two, three, four or five vectors cleared from it, one after the other.
fn clear_two(a: u16, b: u16, x: u16) -> u16
    ensures { result ≡ clear b (clear a x) }
{
    clear(b, clear(a, x))
}

fn clear_three(a: u16, b: u16, c: u16, x: u16) -> u16
    ensures { result ≡ clear c (clear b (clear a x)) }
{
    clear(c, clear_two(a, b, x))
}

fn clear_four(a: u16, b: u16, c: u16, d: u16, x: u16) -> u16
    ensures { result ≡ clear d (clear c (clear b (clear a x))) }
{
    clear(d, clear_three(a, b, c, x))
}

fn clear_five(a: u16, b: u16, c: u16, d: u16, e: u16, x: u16) -> u16
    ensures { result ≡ clear e (clear d (clear c (clear b (clear a x)))) }
{
    clear(e, clear_four(a, b, c, d, x))
}

// What is left of a vector when those of the basis are cleared from it.
fn reduced(basis: [u16; 6], x: u16) -> u16
    ensures { result ≡ reduced basis x }
{
    let half = clear_three(basis[0], basis[1], basis[2], x);
    clear_three(basis[3], basis[4], basis[5], half)
}

// A basis of the column of ones and the wires' columns, on the given rows. A column that depends on those before it leaves a 0, which stays
// in its place and clears nothing.
fn base(rows: u16, columns: [u16; 5]) -> [u16; 6]
    ensures { result ≡ rests rows (generators columns) [] }
{
    let a = rows & 65535;
    let b = clear(a, rows & columns[0]);
    let c = clear_two(a, b, rows & columns[1]);
    let d = clear_three(a, b, c, rows & columns[2]);
    let e = clear_four(a, b, c, d, rows & columns[3]);
    let f = clear_five(a, b, c, d, e, rows & columns[4]);
    [a, b, c, d, e, f]
}

// 1 if something is left of a vector, else 0.
fn one(y: u16) -> usize
    ensures value { result ≡ one y }
    ensures upper_bound { result ≤ 1 }
{
    if y == 0 { 0 } else { 1 }
}

// How many of four columns are independent modulo the basis: each is cleared by the basis and by what is left of those before it.
fn fresh(rows: u16, columns: [u16; 4], basis: [u16; 6]) -> usize
    ensures value { result ≡ fresh rows columns basis }
    ensures upper_bound { result ≤ 4 }
{
    let a = reduced(basis, rows & columns[0]);
    let b = clear(a, reduced(basis, rows & columns[1]));
    let c = clear_two(a, b, reduced(basis, rows & columns[2]));
    let d = clear_three(a, b, c, reduced(basis, rows & columns[3]));
    one(a) + (one(b) + (one(c) + one(d)))
}

// How many of the first `n` outputs are independent modulo the columns: at least so many heavy gates are still needed.
pub fn needed(t: Wanted, columns: [u16; 5], n: usize) -> usize
    ensures value { result ≡ needed t columns n }
    ensures upper_bound { result ≤ 4 }
{
    let rows = span::full_rows(t, n);
    let value = t.value;
    fresh(rows, span::first(n, 0, value), base(rows, columns))
}
