// How many cells hold a count, and whether that is what was published.
ghost use Rattle.std.specs.Prelude.{◌≡◌, get_or};
ghost use Rattle.tally.specs.counts.Counts.{how_many, published, agrees};

const PUBLISHED: [usize; 9] = [1, 12, 102, 625, 2780, 8921, 17049, 10253, 577];

// The published figure for so many gates, or 0 where there is none.
#[tactic(auto, unfolding(crate::specs::counts::Counts::published))]
pub fn published(gates: usize) -> usize
    ensures { result ≡ get_or published gates 0 }
{
    PUBLISHED.get(gates).copied().unwrap_or(0)
}

// How many cells lie from `least` to `most`.
pub fn count(cells: &[u8], least: u8, most: u8) -> usize
    ensures { result ≡ how_many least most cells.now }
{
    cells
        .iter()
        .filter(|&&cell| least <= cell && cell <= most)
        .count()
}

// Whether as many cells hold 0, 1 and so on up to 8 gates as were published.
pub fn agrees(cells: &[u8]) -> bool
    ensures { result ≡ agrees cells.now }
{
    (0..9).all(|k| count(cells, k, k) == published(usize::from(k)))
}
