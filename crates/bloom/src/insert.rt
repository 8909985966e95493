// States put into a filter, each whole and with its projections: without one wire, and without two.
ghost use Rattle.std.specs.Prelude.{◌≡◌, true, ℕ, ◌-◌, ◌≤◌, ◌<◌, length, get_or, eqb};
ghost use Rattle.logic.specs.Rules.{pick};
ghost use Rattle.bloom.specs.hash.Reach.{part_of, SeenBut};
ghost use Rattle.bloom.specs.bits.Places.{key_of, lit_at, Grown};

use crate::hash::Reach;
use crate::{bits, hash};

// Puts in the hash of a projection that leaves out wire `w`. If `w` is `but` there is nothing to do: that projection is in the filter
// already.
fn mark_unless(but: usize, w: usize, size: u32, hash: usize, bits: &mut [u64])
    ensures bits_len_unchanged { length bits.new ≡ length bits.old }
    ensures grown { Grown bits.old bits.new }
    ensures hash_after { (w ≡ but → ⊥) → lit_at bits.new (key_of size hash) ≡ true }
{
    if w != but {
        bits::mark(size, hash, bits);
    }
}

// For each of the first `count` wires except `but`, puts in the hash less the share of that wire.
fn mark_less(size: u32, hash: usize, shares: [u32; 5], count: usize, but: usize, bits: &mut [u64])
    requires count_bound { count ≤ 5 }
    requires by_index { (w : ℕ) → w < count → get_or shares w 0 ≤ hash }
    ensures bits_len_unchanged { length bits.new ≡ length bits.old }
    ensures grown { Grown bits.old bits.new }
    ensures by_index_2 { (w : ℕ) → w < count → (w ≡ but → ⊥) → lit_at bits.new (key_of size (hash - get_or shares w 0)) ≡ true }
{
    for w in 0..count {
        mark_unless(but, w, size, hash - hash::word_at(shares, w), bits);
    }
}

// With how many of the wires before it wire `a` is left out as a pair: all `a` of them. None if `a` is `but`; and none if its share is 0,
// since the hash without the other wire alone is the same and is put in anyway.
fn pairs(share: usize, a: usize, but: usize) -> usize
    ensures { result ≡ pick (eqb a but) 0 (pick (eqb share 0) 0 a) }
{
    if a == but || share == 0 { 0 } else { a }
}

// Puts in the hash less each two shares, except pairs with wire `but` and pairs of which the later share is 0.
fn mark_pairs(size: u32, hash: usize, shares: [u32; 5], but: usize, bits: &mut [u64])
    requires { hash ≡ part_of shares 5 5 }
    ensures bits_len_unchanged { length bits.new ≡ length bits.old }
    ensures grown { Grown bits.old bits.new }
    ensures by_index { (a : ℕ) → a < 5 → (b : ℕ) → b < pick (eqb a but) 0 (pick (eqb (get_or shares a 0) 0) 0 a) → (b ≡ but → ⊥)
        → lit_at bits.new (key_of size (hash - get_or shares a 0 - get_or shares b 0)) ≡ true }
{
    for a in 0..5 {
        let s = hash::word_at(shares, a);
        mark_less(size, hash - s, shares, pairs(s, a, but), but, bits);
    }
}

// Puts a state in: whole, without each wire, and without each two, except the projections that leave out wire `but`. After a gate `but` is
// its target: without that wire the state is what it was before the gate, so these projections are in already.
pub fn note(reach: Reach, columns: [u16; 5], but: usize, bits: &mut [u64])
    ensures bits_len_unchanged { length bits.new ≡ length bits.old }
    ensures grown { Grown bits.old bits.new }
    ensures seen_but { SeenBut but bits.new reach columns }
{
    let size = reach.size;
    let parts = hash::shares(reach, columns);
    let hash = hash::whole(parts);
    bits::mark(size, hash, bits);
    mark_less(size, hash, parts, 5, but, bits);
    mark_pairs(size, hash, parts, but, bits);
}
