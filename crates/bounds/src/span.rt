// What the elimination works on: the rows that want every output, and the wanted columns of the outputs that there are. specs/span defines
// the bound, and proofs/span proves it.
ghost use Rattle.std.specs.Prelude.{◌≡◌, ltb};
ghost use Rattle.logic.specs.Rules.{pick};
ghost use Rattle.bounds.specs.span.Span.{first, full_rows};

use columns::Wanted;

// The column of output `j`, or `d` if it is not one of the first `n`.
fn pick(j: usize, n: usize, column: u16, d: u16) -> u16
    ensures { result ≡ pick (ltb j n) column d }
{
    if j < n { column } else { d }
}

// The columns of the first `n` outputs, and `d` in place of the others.
pub fn first(n: usize, d: u16, columns: [u16; 4]) -> [u16; 4]
    ensures { result ≡ first 0 n d columns }
{
    [
        pick(0, n, columns[0], d),
        pick(1, n, columns[1], d),
        pick(2, n, columns[2], d),
        pick(3, n, columns[3], d),
    ]
}

// The rows that want each of the first `n` outputs.
pub fn full_rows(t: Wanted, n: usize) -> u16
    ensures { result ≡ full_rows t n }
{
    let columns = t.care;
    let care = first(n, 65535, columns);
    care[3] & (care[2] & (care[1] & (care[0] & 65535)))
}
