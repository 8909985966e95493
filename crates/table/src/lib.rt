// Truth tables with don't-cares, and what it means to realize one. A row is one byte: the care mask (document 01: wanted-bits mask) in its
// high four bits, the value in its low four. This root checks the rows of a table.
// - `agreement`: whether a gate list gives every bit that the table cares about.
// - `cleaning`: whether a gate list returns the ancilla to 0.
// - `layouts`: final layouts, that is, which wire each output ends on.
#![tactic(auto)]

pub mod agreement;
pub mod cleaning;
pub mod layouts;

ghost use Rattle.std.specs.Prelude.{◌≡◌, ◌<◌};
ghost use Rattle.logic.specs.Lists.{all_of};
ghost use Rattle.table.specs.Rows.{row_ok};

// Whether a row is in order for `n` outputs: no value bit outside the care mask, and no bit of either from `n` on.
#[tactic(auto, unfolding(crate::specs::Rows::row_ok))]
fn row_ok(n: usize, row: u8) -> bool
    requires { n < 64 }
    ensures { result ≡ row_ok n row }
{
    let care = usize::from(row / 16);
    let value = usize::from(row % 16);
    care & value == value && care < 1 << n && value < 1 << n
}

// Whether every row of a table is in order for `n` outputs.
pub fn rows_ok(n: usize, rows: &[u8]) -> bool
    requires { n < 64 }
    ensures { result ≡ all_of (row_ok n) rows.now }
{
    rows.iter().all(|&row| row_ok(n, row))
}
