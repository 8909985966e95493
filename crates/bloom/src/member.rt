// Whether a whole state is in the filter. If not, it cannot be finished within the radius, and its node is pruned; if it is in only by a
// collision, it is searched in vain.
ghost use Rattle.std.specs.Prelude.{◌≡◌, false, not, ◌≤◌, ◌<◌};
ghost use Rattle.logic.specs.Bit.{bit_of};
ghost use Rattle.gate.specs.Gates.{target_of};
ghost use Rattle.bloom.specs.hash.Reach.{shares_of, held};

use crate::hash::Reach;
use crate::{bits, hash};

// Whether a state is not in the filter: then no list of at most `radius` gates finishes from it.
pub fn beyond(bits: &[u64], reach: Reach, columns: [u16; 5]) -> bool
    ensures { result ≡ not (held bits.now reach.size (shares_of reach columns) 5 5) }
{
    let hash = hash::whole(hash::shares(reach, columns));
    !bits::lit(bits, bits::key(reach.size, hash))
}

// Whether a gate's target is one of the open wires, which are given a bit each.
pub fn open(wires: usize, g: u8) -> bool
    ensures { result ≡ false → bit_of (target_of g) wires ≡ 0 }
{
    (wires >> (usize::from(g) / 32)) % 2 != 0
}

// Whether a state may be finished by at most `left` gates, as far as the filter says: yes if `left` is greater than the radius.
pub fn near_enough(bits: &[u64], reach: Reach, columns: [u16; 5], left: usize) -> bool
    ensures { result ≡ false
        → (left ≤ reach.radius) × (held bits.now reach.size (shares_of reach columns) 5 5 ≡ false) }
{
    reach.radius < left || !beyond(bits, reach, columns)
}
