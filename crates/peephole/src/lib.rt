// Peephole optimization of long gate lists: the call `rewrite` goes through a list with a window of 2 to 4 gates. The gates in a window are
// made a job for the search; the window yields where the search finds cheaper gates that do the same. The leftmost window that yields is
// replaced by what was found, and so on until none yields. A caller gets the new number of gates, the list in its own buffer with the bytes
// freed at the end set to 0; or a refusal code, 32 to 34, with the list as it was.
#![tactic(auto)]

pub mod hits; // the gates that take a window's place
pub mod listing; // what needs no search: the rules of a list, the job of a window, and a window replaced
pub mod windows; // definitions and theorems: when a window yields, and what a list becomes

ghost use Rattle.std.specs.Prelude.{◌≡◌, ◌+◌, ◌-◌, ◌≤◌, length, take};
ghost use Rattle.record.specs.Answers.{reply};
ghost use Rattle.table.specs.layouts.Layouts.{Width};
ghost use Rattle.peephole.specs.windows.Windows.{better, rewritten};
ghost use Rattle.peephole.specs.windows.Listings.{rewrite_of, list_left};
ghost use Rattle.peephole.specs.windows.Inner.{Still};
ghost use Rattle.peephole.specs.Inner.{offered, Scanned};

use crate::hits::{Hit, Offer};
use crate::windows::Prices;
use circuit::Weights;
use record::refusal::Refusal;

// What the search finds for the gates of a window, where it is cheaper than they are.
fn look_at(wires: usize, prices: Prices, gates: &[u8]) -> Option<Offer>
    requires width { Width wires }
    requires gates_len_bound { length gates.now ≤ 4 }
    ensures { offered result ≡ better wires prices gates.now }
{
    let job = listing::window_job(wires, prices, gates);
    let end = 12 + listing::value_count(wires);
    let mut bytes = [0u8; 15];
    match search::search(&job[..end], &mut bytes) {
        Ok(found) => {
            let len = found.size - 3;
            if found.measures.cost < circuit::cost(gates, Weights::from(prices)) {
                Some(Offer { len, bytes })
            } else {
                None
            }
        }
        Err(_) => None,
    }
}

// The first window that yields, of those that begin at gate `from` or later.
fn next_hit(wires: usize, window: usize, prices: Prices, list: &[u8], from: usize) -> Option<Hit>
    requires width { Width wires }
    requires le_window { (1 ≤ window) × (window ≤ 4) }
    requires from_in_bounds { from ≤ length list.now }
    ensures { Still (better wires prices) window from list.now
        → Scanned (better wires prices) window list.now result }
{
    let end = (list.len() + 1).saturating_sub(window);
    for at in from..end {
        let past = at + window;
        if let Some(offer) = look_at(wires, prices, &list[at..past]) {
            return Some(Hit { at, offer });
        }
    }
    None
}

// Where the scan resumes after a replacement at gate `at`: at the first window that reaches gate `at`. The windows before it are unchanged.
fn resume(at: usize, window: usize) -> usize
    requires { 1 ≤ window }
    ensures { result ≡ at + 1 - window }
{
    if window <= at { at - (window - 1) } else { 0 }
}

// Replaces the leftmost window that yields until none does, and returns how many gates are left, at the front of the buffer.
fn settle(wires: usize, window: usize, prices: Prices, list: &mut [u8]) -> usize
    requires width { Width wires }
    requires le_window { (1 ≤ window) × (window ≤ 4) }
    ensures upper_bound { result ≤ length list.old }
    ensures list_after { take result list.new ≡ rewritten wires window prices list.old }
{
    let mut count = list.len();
    let mut from = 0;
    while let Some(hit) = next_hit(wires, window, prices, &list[..count], from) {
        count = listing::replace(&mut list[..count], window, hit.at, hit.offer.gates());
        from = resume(hit.at, window);
    }
    count
}

// Makes a list cheaper, a window of gates at a time, and returns its new number of gates. The bytes that it no longer needs become 0.
pub fn rewrite(wires: u8, window: u8, prices: Prices, list: &mut [u8]) -> Result<usize, Refusal>
    ensures result_value { reply result ≡ rewrite_of wires window prices list.old }
    ensures list_after { list.new ≡ list_left wires window prices list.old }
{
    let n = usize::from(wires);
    let k = usize::from(window);
    listing::check_rewrite(n, k, list)?;
    let count = settle(n, k, prices, list);
    listing::clear(list, count);
    Ok(count)
}
