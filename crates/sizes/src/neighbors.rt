// The neighbor of a permutation by a gate, from place to place in dictionary order. A place is taken apart digit by digit (in the factorial
// number system); the values not used yet are kept as a mask, with a 1 for each.
ghost use Rattle.std.specs.Prelude.{◌≡◌, true, ◌-◌, ◌%◌, ◌^◌, ◌<◌, ◌≤◌, get_or};
ghost use Rattle.std.specs.Int.Bits.{bit_xor};
ghost use Rattle.std.specs.Int.Count.{ones};
ghost use Rattle.logic.specs.Rules.{pick};
ghost use Rattle.gate.specs.Gates.{lawful};
ghost use Rattle.sizes.specs.permutations.Inner.{in_mask, members, neighbor_of};

use gate::step;

// Whether value `x` is not used yet.
fn in_mask(m: usize, x: usize) -> bool
    requires { x < 8 }
    ensures { result ≡ in_mask m x }
{
    (m >> x) % 2 == 1
}

// The unused value that has `d` smaller unused ones, or 0 where there is none.
fn member(m: usize, d: usize) -> usize
    ensures value { result ≡ get_or (members m) d 0 }
    ensures upper_bound { result < 8 }
{
    let mut ahead = d;
    for x in 0..8 {
        if in_mask(m, x) {
            if ahead == 0 {
                return x;
            }
            ahead -= 1;
        }
    }
    0
}

// How many unused values are less than `x`.
fn lesser(m: usize, x: usize) -> usize
    requires { x < 8 }
    ensures value { result ≡ ones (m % 2 ^ x) }
    ensures upper_bound { result ≤ 8 }
{
    (m % (1 << x)).count_ones() as usize
}

fn flip(m: usize, x: usize) -> usize
    requires { x < 8 }
    ensures { result ≡ bit_xor m (2 ^ x) }
{
    m ^ (1 << x)
}

// The place of the permutation that gate `g` makes of the one at place `r`. At each turn `x` is the next value of the permutation at `r`,
// and `y` what the gate makes of it; `orders` is the number of orders of the n values after it, n factorial.
pub fn neighbor(g: u8, r: usize) -> usize
    requires { lawful 2 3 g ≡ true }
    ensures { result ≡ neighbor_of g r }
{
    let mut from = 255;
    let mut to = 255;
    let mut rest = r;
    let mut place = 0;
    let mut orders = 40320;
    for n in (0..8).rev() {
        orders /= n + 1;
        let x = member(from, rest / orders);
        let y = step::step(g, x);
        place += lesser(to, y) * orders;
        from = flip(from, x);
        to = flip(to, y);
        rest %= orders;
    }
    place
}
