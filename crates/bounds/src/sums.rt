// Which costs a gate list can have, and with how many gates, as marks in a slice that the caller lends: place 13 * s + n stands for n
// gates, at most 12, that cost s. The search need not try a cost that no list has.
ghost use Rattle.std.specs.Prelude.{◌≡◌, true, false, ◌+◌, ◌-◌, ◌*◌, ◌≤◌, ◌<◌, length};
ghost use Rattle.problem.specs.Entries.{entry_prices};
ghost use Rattle.bounds.specs.sums.Sums.{put, put_from, Extends, Marked};

use problem::Entry;

// Marks the place `step` places after `i`, if the slice has it.
fn put(i: usize, step: usize, sums: &mut [u8])
    requires { i ≤ length sums.old }
    ensures { sums.new ≡ put (i + step) sums.old }
{
    if step < sums.len() - i {
        sums[i + step] = 1;
    }
}

// How many places further one more gate of this price leads.
fn stride(price: u8) -> usize
    ensures { result ≡ 13 * price + 1 }
{
    13 * logic::wide(price) + 1
}

// Marks each place that one more gate leads to from place `i`.
fn put_from(entries: &[Entry], i: usize, sums: &mut [u8])
    requires { i ≤ length sums.old }
    ensures { sums.new ≡ put_from i (entry_prices entries.now) sums.old }
{
    for entry in entries {
        put(i, stride(entry.price), sums);
    }
}

// Whether one more gate may come after place `i`: it is marked, and its number of gates is below the limit.
fn extends(mark: u8, i: usize, limit: usize) -> bool
    ensures extends { result ≡ true → Extends limit i mark }
    ensures fact { result ≡ false → Extends limit i mark → ⊥ }
{
    if mark == 0 {
        return false;
    }
    i % 13 < limit
}

// Marks the cost and number of gates of every list of at most `limit` gates at the prices of the entries, as far as the slice goes.
pub fn mark(entries: &[Entry], limit: usize, sums: &mut [u8])
    requires { limit ≤ 12 }
    ensures sums_len_unchanged { length sums.new ≡ length sums.old }
    ensures marked { Marked (entry_prices entries.now) limit sums.new }
{
    put(0, 0, sums);
    for place in 0..sums.len() {
        if extends(sums[place], place, limit) {
            put_from(entries, place, sums);
        }
    }
}
