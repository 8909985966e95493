// The hash of a state, which is a sum of one share for each wire, and the description of a filter.
ghost use Rattle.std.specs.Prelude.{◌≡◌, ◌<◌, get_or};
ghost use Rattle.bloom.specs.hash.Reach.{share_of, shares_of, part_of};

// The description of a filter, kept beside its bits: which states are within reach of what is wanted. It holds those within `radius` gates,
// in `size` bits; it looks at these `rows` only, and has a factor for each wire's share of a hash.
#[derive(Clone, Copy)]
pub struct Reach {
    pub radius: usize,
    pub size: u32,
    pub rows: u16,
    pub factors: [u32; 5],
}

// What a column adds to the hash, by its wire's factor.
#[tactic(auto, unfolding(crate::specs::hash::Reach::share_of))]
fn share(factor: u32, column: u16) -> u32
    ensures { result ≡ share_of factor column }
{
    let x = usize::from(column) * factor as usize;
    ((x ^ (x >> 23)) % 4294967296 * 2654435761 % 4294967296) as u32
}

// The shares of the five wires.
pub fn shares(reach: Reach, columns: [u16; 5]) -> [u32; 5]
    ensures { result ≡ shares_of reach columns }
{
    std::array::from_fn(|w| share(reach.factors[w], columns[w] & reach.rows))
}

// Entry `w` of five, or 0 past the end.
pub fn word_at(words: [u32; 5], w: usize) -> usize
    ensures value { result ≡ get_or words w 0 }
    ensures upper_bound { result < 4294967296 }
{
    if w < 5 { words[w] as usize } else { 0 }
}

// The hash of the whole state. The terms are written out: a chain's sum of them would want a bound on each element.
pub fn whole(shares: [u32; 5]) -> usize
    ensures { result ≡ part_of shares 5 5 }
{
    word_at(shares, 4)
        + (word_at(shares, 3) + (word_at(shares, 2) + (word_at(shares, 1) + word_at(shares, 0))))
}
