// The columns that a table wants, and the columns of the wires before the first gate.
ghost use Rattle.std.specs.Prelude.{◌≡◌, ◌≤◌, ◌<◌, length};
ghost use Rattle.columns.specs.Wanted.{column_of, row_bit, columns_of, wanted_of, start_columns};

use crate::Wanted;

// Bit `j` of a row's care mask or of its value.
#[tactic(auto, unfolding(crate::specs::Wanted::row_bit))]
fn row_bit(care: bool, j: usize, row: u8) -> usize
    requires { j < 4 }
    ensures value { result ≡ row_bit care j row }
    ensures upper_bound { result < 2 }
{
    let bits = if care { row / 16 } else { row % 16 };
    usize::from(bits >> j) % 2
}

// The care column or the value column of output `j`, built from the last row to the first.
fn column(care: bool, j: usize, rows: &[u8]) -> u16
    requires j_bound { j < 4 }
    requires rows_len_bound { length rows.now ≤ 16 }
    ensures { result ≡ column_of (row_bit care j) rows.now }
{
    let mut bits = 0;
    // not a fold: the bits so far fit 16 bits, and a closure's argument need not
    for x in (0..rows.len()).rev() {
        bits = row_bit(care, j, rows[x]) + 2 * bits;
    }
    bits as u16
}

// The care columns or the value columns of the four outputs.
#[tactic(auto, unfolding(crate::specs::Wanted::columns_of))]
fn four_columns(care: bool, rows: &[u8]) -> [u16; 4]
    requires { length rows.now ≤ 16 }
    ensures { result ≡ columns_of care rows.now }
{
    [
        column(care, 0, rows),
        column(care, 1, rows),
        column(care, 2, rows),
        column(care, 3, rows),
    ]
}

// What a table wants of its outputs.
#[tactic(auto, unfolding(crate::specs::Wanted::wanted_of))]
pub fn wanted_of(rows: &[u8]) -> Wanted
    requires { length rows.now ≤ 16 }
    ensures { result ≡ wanted_of rows.now }
{
    Wanted {
        care: four_columns(true, rows),
        value: four_columns(false, rows),
    }
}

// The columns before the first gate: row x starts with the value x.
#[tactic(auto, unfolding(crate::specs::Wanted::start_columns))]
pub fn start_columns() -> [u16; 5]
    ensures { result ≡ start_columns }
{
    [0xAAAA, 0xCCCC, 0xF0F0, 0xFF00, 0]
}
