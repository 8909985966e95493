// How many gates a spare cost still buys, where some of them must be heavy: each gate costs at least `low`, and a heavy one at least
// `extra` more.
ghost use Rattle.std.specs.Prelude.{◌≡◌, ◌+◌, ◌-◌, ◌*◌, ◌/◌, ◌≤◌, ◌<◌, ltb};
ghost use Rattle.std.specs.List.{All};
ghost use Rattle.logic.specs.Rules.{pick};
ghost use Rattle.problem.specs.declared.Entry.{Entry};
ghost use Rattle.bounds.specs.budget.Heavy.{heavy};
ghost use Rattle.bounds.specs.budget.Afford.{buys};

use problem::Entry;

// How much greater `a` is than `b`; 0 if it is not.
fn above(a: usize, b: usize) -> usize
    ensures { result ≡ a - b }
{
    if b < a { a - b } else { 0 }
}

// `sum / price`, without a division for the price of 1, which is the most common one.
fn quotient(sum: usize, price: usize) -> usize
    requires { 0 < price }
    ensures { result ≡ sum / price }
{
    if price == 1 { sum } else { sum / price }
}

// Whether a gate is heavy: it has two or more controls.
pub fn heavy(g: u8) -> bool
    ensures { result ≡ heavy g }
{
    2 <= u8::count_ones(g % 32)
}

// The least price of an entry; 255 if there are none.
pub fn low(entries: &[Entry]) -> usize
    ensures each { All (λ (e : Entry). result ≤ e.price) entries.now }
    ensures upper_bound { result ≤ 255 }
{
    let mut least = 255;
    for entry in entries {
        least = logic::lesser(least, logic::wide(entry.price));
    }
    least
}

// The price of a heavy gate; 255 for any other gate.
fn heavy_price(entry: Entry) -> usize
    ensures value { result ≡ pick (heavy entry.gate) entry.price 255 }
    ensures upper_bound { result ≤ 255 }
{
    if heavy(entry.gate) {
        logic::wide(entry.price)
    } else {
        255
    }
}

// How much more than the least price `low` each heavy gate costs at least.
pub fn extra(entries: &[Entry], low: usize) -> usize
    requires { All (λ (e : Entry). low ≤ e.price) entries.now }
    ensures each { All (λ (e : Entry). low + pick (heavy e.gate) result 0 ≤ e.price) entries.now }
    ensures upper_bound { result ≤ 255 }
{
    let mut least = 255;
    for entry in entries {
        least = logic::lesser(least, heavy_price(*entry));
    }
    above(least, low)
}

// Whether the spare cost is too small for the heavy gates still needed: less than what they cost above the least price.
pub fn unaffordable(extra: usize, needed: usize, spare: usize) -> bool
    requires { (needed ≤ 12) × (extra ≤ 255) }
    ensures { result ≡ ltb spare (needed * extra) }
{
    spare < needed * extra
}

// The most gates that the spare cost buys if `needed` of them are heavy; never more than `remaining`.
pub fn buys(low: usize, extra: usize, needed: usize, spare: usize, remaining: usize) -> usize
    requires { (needed ≤ 12) × (extra ≤ 255) }
    ensures value { result ≡ buys low extra needed spare remaining }
    ensures upper_bound { result ≤ remaining }
{
    if low == 0 {
        return remaining;
    }
    logic::lesser(remaining, quotient(above(spare, needed * extra), low))
}
