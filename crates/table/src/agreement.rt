// Whether a gate list gives the bits that a table cares about.
ghost use Rattle.std.specs.Prelude.{◌≡◌, ◌<◌};
ghost use Rattle.circuit.specs.run.Run.{forwards};
ghost use Rattle.table.specs.Rows.{bit_agrees, row_agrees, agrees};

use circuit::run;

// Whether output `j` is right in a row whose wires end with the value `v`: the row does not care about it, or its wire under the layout
// `p` has the row's bit.
#[tactic(auto, unfolding(crate::specs::Rows::bit_agrees))]
fn bit_agrees(p: u8, row: u8, v: usize, j: usize) -> bool
    requires { j < 4 }
    ensures { result ≡ bit_agrees p row v j }
{
    let care = usize::from(row / 16);
    let value = usize::from(row % 16);
    let wire = usize::from(p >> (6 - 2 * j)) % 4;
    (care >> j) % 2 != 1 || (v >> wire) % 2 == (value >> j) % 2
}

// Whether all outputs of a row are right.
fn row_agrees(p: u8, row: u8, v: usize) -> bool
    ensures { result ≡ row_agrees p row v }
{
    (0..4).all(|j| bit_agrees(p, row, v, j))
}

// Whether a gate list is right in every row under the layout `p`. Row x starts with the value x.
pub fn agrees(p: u8, list: &[u8], rows: &[u8]) -> bool
    ensures { result ≡ agrees p (forwards list.now) rows.now }
{
    rows.iter()
        .enumerate()
        .all(|(x, &row)| row_agrees(p, row, run::forwards(list, x)))
}
