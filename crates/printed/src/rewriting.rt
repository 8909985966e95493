// What `gazbolk rewrite` prints of a list of gates before and after it was rewritten, and how many of its gates decide that.
ghost use Rattle.std.specs.Prelude.{◌≡◌, ◌+◌, ◌≤◌, length};
ghost use Rattle.text.specs.pieces.Text.{in_front};
ghost use Rattle.text.specs.pieces.Writing.{Wrote};
ghost use Rattle.peephole.specs.windows.Windows.{cost_at};
ghost use Rattle.printed.specs.rewriting.Rewriting.{millions, count_line, rewritten_text, prices_in, TellingList};

use circuit::{Rate, Weights};
use peephole::windows::Prices;
use text::{hex, pieces};

// How many gates of a file decide what is printed: one more than a list may have.
pub fn list_room() -> usize
    ensures telling_list { TellingList result }
    ensures upper_bound { result ≤ 65536 }
{
    4097
}

// The cost of a list, which may be longer than a circuit's.
pub fn list_cost(list: &[u8], prices: Prices) -> usize
    requires { length list.now ≤ 65536 }
    ensures { result ≡ cost_at prices list.now }
{
    let weights = Weights::from(prices);
    list.iter().map(|&b| usize::from(weights.weight(b))).sum()
}

// Writes a number below 10,000,000, and answers the index after it.
fn put_millions(out: &mut [u8], i: usize, n: usize) -> usize
    requires { i + 7 ≤ length out.old }
    ensures { Wrote out.old i (millions n) out.new result }
{
    let a = pieces::put_place(out, i, n, 1000000);
    let b = pieces::put_place(out, a, n, 100000);
    pieces::put_decimal(out, b, n)
}

// Writes a word, a number of gates and a cost, and answers the index after the line.
fn put_counts(out: &mut [u8], i: usize, word: &[u8], count: usize, cost: usize) -> usize
    requires word_len_bound { length word.now ≤ 7 }
    requires i_in_bounds { i + 21 ≤ length out.old }
    ensures { Wrote out.old i (count_line word.now count cost) out.new result }
{
    let a = pieces::put_text(out, i, word);
    let b = pieces::put_spaced(out, a, count);
    let c = put_millions(out, b, cost);
    pieces::put(out, c, b'\n')
}

// Writes what is printed for a list that was rewritten to the start of the buffer, and answers its length.
pub fn put_rewritten(count: usize, cost: usize, new: &[u8], prices: Prices, out: &mut [u8]) -> usize
    requires len_bound { length new.now ≤ 4096 }
    requires in_bounds { 8300 ≤ length out.old }
    ensures value { result ≡ length (rewritten_text count cost prices new.now) }
    ensures upper_bound { result ≤ 8300 }
    ensures out_after { out.new ≡ in_front (rewritten_text count cost prices new.now) out.old }
{
    let a = put_counts(out, 0, b"before ", count, cost);
    let b = put_counts(out, a, b"after ", new.len(), list_cost(new, prices));
    let c = hex::put_hex(out, b, new);
    pieces::put(out, c, b'\n')
}

// The prices in the head of a file, its first five bytes.
pub fn prices_in(head: &[u8]) -> Prices
    ensures { result ≡ prices_in head.now }
{
    Prices {
        not: logic::at(head, 2),
        cnot: logic::at(head, 3),
        toffoli: logic::at(head, 4),
    }
}
