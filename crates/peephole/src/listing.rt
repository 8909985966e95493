// What rewriting a list needs besides the search: the rules of a list, the job of a window, and a window replaced.
ghost use Rattle.std.specs.Prelude.{◌≡◌, ◌++◌, ◌+◌, ◌-◌, ◌*◌, ◌%◌, ◌^◌, ◌<◌, ◌≤◌, length, take, drop, replicate};
ghost use Rattle.record.specs.Answers.{code_of};
ghost use Rattle.circuit.specs.run.Run.{forwards};
ghost use Rattle.table.specs.layouts.Layouts.{Width};
ghost use Rattle.peephole.specs.windows.Windows.{weights, window_job, spliced};
ghost use Rattle.peephole.specs.windows.Listings.{sizes_ok, rewrite_code};
ghost use Rattle.peephole.specs.listing.Inner.{job_head};

use crate::windows::Prices;
use circuit::{Weights, run};
use record::refusal;
use record::refusal::Refusal;
use text::pieces;

// The prices by kind of gate. No gate here has three controls, so the fourth price is never used.
impl From<Prices> for Weights {
    ghost from_gives = { λ p w. w ≡ weights p };

    fn from(prices: Prices) -> Weights {
        Weights {
            not: prices.not,
            cnot: prices.cnot,
            toffoli: prices.toffoli,
            cccnot: 0,
        }
    }
}

// How many values the wires can have: the number of rows in the table of a window.
pub fn value_count(wires: usize) -> usize
    requires { Width wires }
    ensures value { result ≡ 2 ^ wires }
    ensures lower_bound { (1 ≤ result) × (result ≤ 16) }
{
    if wires == 3 { 8 } else { 16 }
}

// Row `x` of the table of a window, one of `count` rows: it wants all bits of the value that the gates make of `x`.
fn row(count: usize, gates: &[u8], x: usize) -> u8
    requires { (1 ≤ count) × (count ≤ 16) }
    ensures { result ≡ 16 * (count - 1) + forwards gates.now x % 16 }
{
    let value = run::forwards(gates, x) % 16;
    (16 * (count - 1) + value) as u8
}

// The job of a window before its table is filled in: the twelve bytes in front of it, then room for 16 rows.
fn head(wires: usize, prices: Prices, len: usize) -> [u8; 28]
    requires { (wires < 8) × (len < 256) }
    ensures { take 12 result ≡ job_head wires prices len }
{
    let wide = (32 * wires) as u8;
    let limit = len as u8;
    let a = prices.not;
    let b = prices.cnot;
    let c = prices.toffoli;
    [
        wide, limit, 255, 255, 255, 255, a, b, c, 1, 1, 1, 0, 0, 0, 0, 0, 0, 0, 0, 0, 0, 0, 0, 0,
        0, 0, 0,
    ]
}

// The job of a window: it asks for a list that does what these gates do, with no more gates.
pub fn window_job(wires: usize, prices: Prices, gates: &[u8]) -> [u8; 28]
    requires width { Width wires }
    requires gates_len_bound { length gates.now ≤ 4 }
    ensures { take (12 + 2 ^ wires) result ≡ window_job wires prices gates.now }
{
    let count = value_count(wires);
    let mut job = head(wires, prices, gates.len());
    for x in 0..count {
        job[12 + x] = row(count, gates, x);
    }
    job
}

// Moves the bytes from `from` on down to `to`. (The library has no `copy_within`.)
fn close_gap(list: &mut [u8], to: usize, from: usize)
    requires { (to ≤ from) × (from ≤ length list.old) }
    ensures { take (to + (length list.old - from)) list.new
        ≡ take to list.old ++ drop from list.old }
{
    for k in 0..list.len() - from {
        list[to + k] = list[from + k];
    }
}

// Puts gates in place of a window, closes the gap, and returns the new number of gates. The bytes past them are stale.
pub fn replace(list: &mut [u8], window: usize, at: usize, gates: &[u8]) -> usize
    requires window_in_bounds { at + window ≤ length list.old }
    requires len_le_window { length gates.now ≤ window }
    ensures value { result ≡ length list.old - (window - length gates.now) }
    ensures list_after { take result list.new ≡ spliced window at gates.now list.old }
{
    let from = at + window;
    let to = pieces::put_text(list, at, gates);
    close_gap(list, to, from);
    to + (list.len() - from)
}

// Sets the bytes from `from` on to 0.
pub fn clear(list: &mut [u8], from: usize)
    requires { from ≤ length list.old }
    ensures { list.new ≡ take from list.old ++ replicate (length list.old - from) 0 }
{
    list[from..].fill(0);
}

#[tactic(auto, unfolding(crate::specs::windows::Listings::sizes_ok))]
fn sizes_ok(wires: usize, window: usize) -> bool
    ensures { result ≡ sizes_ok wires window }
{
    matches!(wires, 3 | 4) && matches!(window, 2..=4)
}

// Checks a list that is to be rewritten. The gates are looked at only where the wires, the window and the length are in order.
#[tactic(auto, using(crate::proofs::windows::Promises::sizes_sound), unfolding(crate::specs::windows::Listings::rewrite_code))]
pub fn check_rewrite(wires: usize, window: usize, list: &[u8]) -> Result<(), Refusal>
    ensures { code_of result ≡ rewrite_code wires window list.now }
{
    refusal::kept(sizes_ok(wires, window), Refusal::Window)?;
    refusal::kept(list.len() <= 4096, Refusal::ListLength)?;
    refusal::kept(gate::all_lawful(2, wires, list), Refusal::ListGate)
}
