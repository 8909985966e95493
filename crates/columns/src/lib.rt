// States and tables as bit-sliced columns: one word for each wire, and bit x of it is the wire's value in row x. What a table wants of an
// output is kept the same way, so that one XOR and one AND compare all rows at once.
#![tactic(auto)]

pub mod table_columns; // the columns that a table wants, and those of the wires before the first gate

ghost use Rattle.std.specs.Prelude.{◌≡◌, ◌<◌, get_or};
ghost use Rattle.columns.specs.Wanted.{misses, fits, met, all_rows, dirt, tidy, reached};

// What a table wants of each output: in `care` the rows that want a bit of it, in `value` the bits that they want.
#[derive(Clone, Copy)]
pub struct Wanted {
    pub care: [u16; 4],
    pub value: [u16; 4],
}

// The rows in which a column differs from what is wanted of output `j`.
#[tactic(auto, unfolding(crate::specs::Wanted::misses))]
pub fn misses(t: Wanted, column: u16, j: usize) -> u16
    ensures { result ≡ misses t column j }
{
    (column ^ logic::cell(t.value, j)) & logic::cell(t.care, j)
}

// Whether output `j` has every wanted bit on the wire where layout `p` puts it.
fn fits(t: Wanted, columns: [u16; 5], p: u8, j: usize) -> bool
    requires { j < 4 }
    ensures { result ≡ fits t columns p j }
{
    let wire = usize::from(p >> (6 - 2 * j)) % 4;
    misses(t, logic::cell(columns, wire), j) == 0
}

// Whether the columns have every wanted bit of the table under layout `p`.
#[tactic(auto, unfolding(crate::specs::Wanted::met))]
fn met(t: Wanted, columns: [u16; 5], p: u8) -> bool
    ensures { result ≡ met t columns p }
{
    // `&` in place of `&&`: to compute all four and join them costs less than the branches
    fits(t, columns, p, 3)
        & fits(t, columns, p, 2)
        & fits(t, columns, p, 1)
        & fits(t, columns, p, 0)
}

// All rows of a table of `n` outputs, a bit each: 8 or 16.
pub fn all_rows(n: usize) -> u16
    ensures { result ≡ all_rows n }
{
    if n == 3 { 255 } else { 65535 }
}

// The dirt: the rows in which the ancilla, with this column, is not 0.
#[tactic(auto, unfolding(crate::specs::Wanted::dirt))]
pub fn dirt(n: usize, column: u16) -> u16
    ensures { result ≡ dirt n column }
{
    column & all_rows(n)
}

// Whether the ancilla, wire `n`, is 0 in every row.
pub fn tidy(n: usize, columns: [u16; 5]) -> bool
    ensures { result ≡ tidy n columns }
{
    dirt(n, logic::cell(columns, n)) == 0
}

// Whether the columns realize the table under layout `p`: every output has its wanted bits, and the ancilla is 0.
pub fn reached(t: Wanted, n: usize, columns: [u16; 5], p: u8) -> bool
    ensures { result ≡ reached t n columns p }
{
    // `&` in place of `&&`, as in `met`
    met(t, columns, p) & tidy(n, columns)
}
