// `gazbolk rewrite`: a list of gates made cheaper, a window of gates at a time.
ghost use Rattle.std.specs.Prelude.{◌≡◌, ◌≤◌, length};
ghost use Rattle.text.specs.pieces.Text.{in_front};
ghost use Rattle.peephole.specs.windows.Listings.{list_left};
ghost use Rattle.printed.specs.rewriting.Rewriting.{wires_in, window_in, prices_in, rewrite_text};

use printed::rewriting;
use reports::refusal;

// Rewrites a list and writes what is printed to the start of `out`; returns its length. `head` is the wires, the window and three prices.
pub fn rewrite_text(head: &[u8], list: &mut [u8], out: &mut [u8]) -> usize
    requires list_len_bound { length list.old ≤ 65536 }
    requires in_bounds { 8300 ≤ length out.old }
    ensures value { result ≡ length (rewrite_text head.now list.old) }
    ensures upper_bound { result ≤ 8300 }
    ensures list_after { list.new
        ≡ list_left (wires_in head.now) (window_in head.now) (prices_in head.now) list.old }
    ensures out_after { out.new ≡ in_front (rewrite_text head.now list.old) out.old }
{
    let prices = rewriting::prices_in(head);
    let wires = logic::at(head, 0);
    let window = logic::at(head, 1);
    let count = list.len();
    let cost = rewriting::list_cost(&list[..count], prices);
    match peephole::rewrite(wires, window, prices, list) {
        Err(e) => refusal::refused_text(u8::from(e), out),
        Ok(left) => rewriting::put_rewritten(count, cost, &list[..left], prices, out),
    }
}
