// The lines of the tally, each written to the start of a lent buffer; the functions answer the index after the line.
ghost use Rattle.std.specs.Prelude.{◌≡◌, ◌+◌, ◌≤◌, ◌<◌, length, get_or};
ghost use Rattle.text.specs.pieces.Writing.{Wrote};
ghost use Rattle.tally.specs.lines.Lines.{counted, number_line, gates_line, cell_line, places, line_at};

use crate::counts;
use text::pieces;

// The cells that are printed.
const PLACES: [usize; 16] = [
    0, 1, 2, 23, 24, 719, 5039, 5040, 5167, 10000, 20160, 27182, 31415, 35279, 40318, 40319,
];

// The place of printed cell `i`, or 0 where there is none.
#[tactic(auto, unfolding(crate::specs::lines::Lines::places))]
fn place(i: usize) -> usize
    ensures { result ≡ get_or places i 0 }
{
    PLACES.get(i).copied().unwrap_or(0)
}

// Writes a word and a number from index `i` on.
fn put_counted(out: &mut [u8], i: usize, word: &[u8], n: usize) -> usize
    requires { i + length word.now + 5 ≤ length out.old }
    ensures { Wrote out.old i (counted word.now n) out.new result }
{
    let a = pieces::put_text(out, i, word);
    pieces::put_decimal(out, a, n)
}

// Writes a line of a word and a number.
pub fn put_number(out: &mut [u8], word: &[u8], n: usize) -> usize
    requires word_len_bound { length word.now ≤ 20 }
    requires in_bounds { 64 ≤ length out.old }
    ensures wrote { Wrote out.old 0 (number_line word.now n) out.new result }
    ensures upper_bound { result ≤ 64 }
{
    let a = put_counted(out, 0, word, n);
    pieces::put(out, a, b'\n')
}

// Writes how many cells hold a count, and how many were published.
fn put_gates(out: &mut [u8], cells: &[u8], k: u8) -> usize
    requires { 64 ≤ length out.old }
    ensures { Wrote out.old 0 (gates_line cells.now k) out.new result }
{
    let n = counts::count(cells, k, k);
    let figure = counts::published(k as usize);
    let a = put_counted(out, 0, b"gates ", k as usize);
    let b = put_counted(out, a, b": ", n);
    let c = put_counted(out, b, b", published ", figure);
    pieces::put(out, c, b'\n')
}

// Writes what the cell at a place holds.
fn put_cell(out: &mut [u8], cells: &[u8], place: usize) -> usize
    requires { 64 ≤ length out.old }
    ensures { Wrote out.old 0 (cell_line cells.now place) out.new result }
{
    let cell = usize::from(logic::at(cells, place));
    let a = put_counted(out, 0, b"cell ", place);
    let b = put_counted(out, a, b": ", cell);
    pieces::put(out, b, b'\n')
}

// Writes line `i` of 26.
pub fn put_line(out: &mut [u8], cells: &[u8], i: usize) -> usize
    requires { 64 ≤ length out.old }
    ensures wrote { Wrote out.old 0 (line_at cells.now i) out.new result }
    ensures upper_bound { result ≤ 64 }
{
    if i < 9 {
        return put_gates(out, cells, i as u8);
    }
    if i == 9 {
        return put_number(out, b"more: ", counts::count(cells, 9, 255));
    }
    put_cell(out, cells, place(i - 10))
}
