// The least gate count of each permutation of three wires. The call `fill` writes all 40,320 of them to a lent buffer, the table of sizes
// (document 02, change request 4). A cell is one byte of the table of sizes: the cell at a permutation's place, in dictionary order of its
// eight values, holds the least number of gates that make the permutation. A caller gets the whole table of sizes, or 25 for a buffer of
// another length. The table of sizes is filled breadth first. Two permutations are neighbors where one gate makes the one of the other. A
// sweep goes over all cells once: an empty cell (255) becomes k + 1 where a neighbor's cell holds k.
#![tactic(auto)]

pub mod neighbors; // the place of a permutation's neighbor by a gate
pub mod permutations; // definitions and theorems: permutations in dictionary order, and their least gate counts (no code)

ghost use Rattle.std.specs.Prelude.{◌≡◌, ℕ, suc, ◌<◌, eqb, length, get_or};
ghost use Rattle.logic.specs.Rules.{pick};
ghost use Rattle.sizes.specs.permutations.Sizes.{twelve};
ghost use Rattle.sizes.specs.permutations.Inner.{apart, grown, Level};
ghost use Rattle.record.specs.Answers.{reply};
ghost use Rattle.sizes.specs.Filling.{fill_of, cells_left};

use gate::gate_tables;
use record::refusal;
use record::refusal::Refusal;

// Whether no neighbor of the permutation at place `r` has a cell that holds `k`.
fn apart(gates: &[u8], cells: &[u8], r: usize, k: u8) -> bool
    requires { gates.now ≡ twelve }
    ensures { result ≡ apart gates.now cells.now r k }
{
    gates
        .iter()
        .all(|&g| logic::at(cells, neighbors::neighbor(g, r)) != k)
}

// The cell at place `r` after the sweep for k + 1 gates: an empty cell takes k + 1 where a neighbor holds `k`; any other stays.
#[tactic(auto, unfolding(crate::specs::permutations::Inner::grown))]
fn grown(gates: &[u8], cells: &[u8], r: usize, k: u8) -> u8
    requires gates_value { gates.now ≡ twelve }
    requires k_bound { k < 254 }
    ensures { result ≡ grown gates.now cells.now r k }
{
    let cell = logic::at(cells, r);
    if cell == 255 && !apart(gates, cells, r, k) {
        k + 1
    } else {
        cell
    }
}

// The sweep for k + 1 gates, in place: a cell filled on the way holds k + 1, not `k`, and so does not count for later cells.
fn grow(gates: &[u8], cells: &mut [u8], k: u8)
    requires gates_value { gates.now ≡ twelve }
    requires cells_len { length cells.old ≡ 40320 }
    requires k_bound { k < 254 }
    ensures cells_len_2 { length cells.new ≡ 40320 }
    ensures level { Level (suc k) cells.old → Level (suc (suc k)) cells.new }
{
    for r in 0..cells.len() {
        cells[r] = grown(gates, cells, r, k);
    }
}

// The sweeps for 1 to 254 gates, all counts that a cell can hold. Once every cell is filled, a sweep changes nothing.
fn grow_all(gates: &[u8], cells: &mut [u8])
    requires gates_value { gates.now ≡ twelve }
    requires cells_len { length cells.old ≡ 40320 }
    ensures cells_len_2 { length cells.new ≡ 40320 }
    ensures level { Level 1 cells.old → Level 255 cells.new }
{
    for k in 0..254 {
        grow(gates, cells, k);
    }
}

// Sets every cell to its value before the first sweep: the first permutation, the identity, needs no gate, and every other cell is empty.
fn clear(cells: &mut [u8])
    requires { 0 < length cells.old }
    ensures cells_len_unchanged { length cells.new ≡ length cells.old }
    ensures by_index { (s : ℕ) → s < length cells.old → get_or cells.new s 0 ≡ pick (eqb s 0) 0 255 }
{
    cells.fill(255);
    cells[0] = 0;
}

// Fills a buffer of 40,320 bytes with the table of sizes.
#[tactic(auto, unfolding(crate::specs::Filling::fill_of, crate::specs::Filling::fill_code, crate::specs::Filling::cells_left))]
pub fn fill(cells: &mut [u8]) -> Result<(), Refusal>
    ensures result_value { reply result ≡ fill_of cells.old }
    ensures cells_after { cells.new ≡ cells_left cells.old }
{
    refusal::kept(cells.len() == 40320, Refusal::SizesLength)?;
    clear(cells);
    let gates = gate_tables::gate_table(2, 3);
    grow_all(&gates[..12], cells);
    Ok(())
}
