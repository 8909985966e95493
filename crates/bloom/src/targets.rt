// The open wires: those that the next gate may have as its target, as far as the filter says. Gates change only their targets, so the state
// without the target of one gate, or without those of two, is still what it was before them: it has to be in the filter.
ghost use Rattle.std.specs.Prelude.{◌≡◌, Bool, ℕ, ◌<◌};
ghost use Rattle.logic.specs.Rules.{bit, some_below};
ghost use Rattle.logic.specs.Bit.{bit_of};
ghost use Rattle.bloom.specs.hash.Reach.{shares_of, part_of, held, open_on};

use crate::hash::Reach;
use crate::{bits, hash};

// The hash of a state without the wires `a` and `b`; without one wire if they are the same.
fn part(shares: [u32; 5], a: usize, b: usize) -> usize
    requires { (a < 5) × (b < 5) }
    ensures { result ≡ part_of shares a b }
{
    let rest = hash::whole(shares) - hash::word_at(shares, a);
    if a == b {
        rest
    } else {
        rest - hash::word_at(shares, b)
    }
}

// Whether a state without the wires `a` and `b` is in the filter.
fn holds(bits: &[u64], size: u32, shares: [u32; 5], a: usize, b: usize) -> bool
    requires { (a < 5) × (b < 5) }
    ensures { result ≡ held bits.now size shares a b }
{
    bits::lit(bits, bits::key(size, part(shares, a, b)))
}

// 1 if at least one of five tests holds, else 0; `|` and not `||`, so that there is no branch.
fn any_of(a: bool, b: bool, c: bool, d: bool, e: bool) -> usize
    ensures by_index { (f : ℕ → Bool) → a ≡ f 0 → b ≡ f 1 → c ≡ f 2 → d ≡ f 3 → e ≡ f 4 → result ≡ bit (some_below 5 f) }
    ensures upper_bound { result < 2 }
{
    usize::from(a | b | c | d | e)
}

// The wires, a bit each, for which the state without that wire is in the filter. Written out and not folded: no lookup waits for another,
// and the sum shows which bit is whose.
fn open_alone(bits: &[u64], size: u32, shares: [u32; 5]) -> usize
    ensures { (w : ℕ) → w < 5 → bit_of w result ≡ bit (held bits.now size shares w w) }
{
    usize::from(holds(bits, size, shares, 0, 0))
        + 2 * usize::from(holds(bits, size, shares, 1, 1))
        + 4 * usize::from(holds(bits, size, shares, 2, 2))
        + 8 * usize::from(holds(bits, size, shares, 3, 3))
        + 16 * usize::from(holds(bits, size, shares, 4, 4))
}

// The wires, a bit each, for which the state without that wire, or without it and one other, is in the filter. Each pair is looked up once,
// and no lookup waits for another.
fn open_pairs(bits: &[u64], size: u32, shares: [u32; 5]) -> usize
    ensures { (w : ℕ) → w < 5 → bit_of w result ≡ bit (some_below 5 (held bits.now size shares w)) }
{
    let aa = holds(bits, size, shares, 0, 0);
    let ab = holds(bits, size, shares, 0, 1);
    let ac = holds(bits, size, shares, 0, 2);
    let ad = holds(bits, size, shares, 0, 3);
    let ae = holds(bits, size, shares, 0, 4);
    let bb = holds(bits, size, shares, 1, 1);
    let bc = holds(bits, size, shares, 1, 2);
    let bd = holds(bits, size, shares, 1, 3);
    let be = holds(bits, size, shares, 1, 4);
    let cc = holds(bits, size, shares, 2, 2);
    let cd = holds(bits, size, shares, 2, 3);
    let ce = holds(bits, size, shares, 2, 4);
    let dd = holds(bits, size, shares, 3, 3);
    let de = holds(bits, size, shares, 3, 4);
    let ee = holds(bits, size, shares, 4, 4);
    any_of(aa, ab, ac, ad, ae)
        + 2 * any_of(ab, bb, bc, bd, be)
        + 4 * any_of(ac, bc, cc, cd, ce)
        + 8 * any_of(ad, bd, cd, dd, de)
        + 16 * any_of(ae, be, ce, de, ee)
}

// The open wires, a bit each: the targets that the next gate may have if it begins a way to finish and at most `left` gates come after it.
// All five are open if `left` is too great for the filter to say anything.
pub fn open_wires(bits: &[u64], reach: Reach, columns: [u16; 5], left: usize) -> usize
    ensures { (w : ℕ) → w < 5 → bit_of w result ≡ bit (open_on bits.now reach (shares_of reach columns) left w) }
{
    if bits.is_empty() {
        return 31;
    }
    if left <= reach.radius {
        open_alone(bits, reach.size, hash::shares(reach, columns))
    } else if left - 1 <= reach.radius {
        open_pairs(bits, reach.size, hash::shares(reach, columns))
    } else {
        31
    }
}
