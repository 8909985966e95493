// The prices and durations of gates, as a library lists them.
ghost use Rattle.std.specs.Prelude.{◌≡◌};
ghost use Rattle.logic.specs.Lists.{all_of};
ghost use Rattle.library.specs.entries.Library.{entries_of, entry_for, price_in, duration_in};
ghost use Rattle.library.specs.entries.Inner.{timed};

use crate::entries;
use circuit::Rate;
use problem::Entry;

// The first entry of a gate byte, or one with price and duration 0 where the library has none.
fn entry_for(library: &[u8], b: u8) -> Entry
    ensures { result ≡ entry_for (entries_of library.now) b }
{
    for i in 0..library.len() / 3 {
        let e = entries::entry_at(library, i);
        if e.gate == b {
            return e;
        }
    }
    Entry {
        gate: b,
        price: 0,
        duration: 0,
    }
}

// Whether a gate has a duration. In a sound library every listed gate has one of at least 1, so this asks whether the gate is listed.
#[tactic(auto, unfolding(crate::specs::entries::Inner::timed))]
fn timed(library: &[u8], b: u8) -> bool
    ensures { result ≡ timed library.now b }
{
    1 <= entry_for(library, b).duration
}

// Whether every gate of a list has a duration in the library.
pub fn all_timed(library: &[u8], list: &[u8]) -> bool
    ensures { result ≡ all_of (timed library.now) list.now }
{
    list.iter().all(|&b| timed(library, b))
}

// The prices of a library's gates.
#[derive(Clone, Copy)]
pub struct Prices<'a> {
    pub library: &'a [u8],
}

impl Rate for Prices<'_> {
    ghost rate = { λ p. price_in p.library.now };

    fn weight(self, b: u8) -> u8 {
        entry_for(self.library, b).price
    }
}

// The durations of a library's gates.
#[derive(Clone, Copy)]
pub struct Durations<'a> {
    pub library: &'a [u8],
}

impl Rate for Durations<'_> {
    ghost rate = { λ d. duration_in d.library.now };

    fn weight(self, b: u8) -> u8 {
        entry_for(self.library, b).duration
    }
}
