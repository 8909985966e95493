// The candidates of a problem in order: lists by length, then by gate bytes, each with every layout. A scan works as an odometer: it keeps
// the next candidate as digits and not as a number, since there can be more than 2^64 candidates.
ghost use Rattle.std.specs.Prelude.{◌≡◌, [], ◌≤◌, ◌<◌, length, take, IfSome};
ghost use Rattle.problem.specs.Problems.{Problem};
ghost use Rattle.scheduler.specs.candidates.Inner.{at_last, digit, over, bump, after_at, remaining};
ghost use Rattle.scheduler.specs.candidates.Left.{chosen, digits_at};

// The place of a candidate: a list of `len` gates, each given by a digit, its index in the table of gates; and a layout, by its index among
// those allowed. A caller can make any place, so no ghost field bounds `len`: that would ask more of `turn` and `collect`.
#[derive(Clone, Copy)]
pub struct Place {
    pub len: usize,
    pub digits: [u8; 12],
    pub layout: u8,
}

// The first place: the empty list with the first layout.
pub fn first() -> Place
    ensures { (digits_at result ≡ []) × ((result.layout ≡ 0) × (result.len ≤ 12)) }
{
    Place {
        len: 0,
        digits: [0; 12],
        layout: 0,
    }
}

// A digit after a step: it moves on only where all later digits were at the last gate, so that the step `carried` to it; from the last gate
// it goes back to the first.
fn digit(gates: usize, d: u8, carried: bool) -> u8
    requires { gates ≤ 75 }
    ensures { result ≡ digit gates d carried }
{
    if !carried {
        return d;
    }
    let next = usize::from(d) + 1;
    if next < gates { next as u8 } else { 0 }
}

// Whether a digit is at the last gate.
fn at_last(d: u8, gates: usize) -> bool
    ensures { result ≡ at_last gates d }
{
    gates <= usize::from(d) + 1
}

// Whether all digits are at the last gate.
fn over(digits: &[u8], gates: usize) -> bool
    ensures { result ≡ over gates digits.now }
{
    digits.iter().all(|&d| at_last(d, gates))
}

// The digits of the next list of the same length.
fn bump(digits: [u8; 12], len: usize, gates: usize) -> [u8; 12]
    requires { (len ≤ 12) × (gates ≤ 75) }
    ensures { take len result ≡ bump gates (take len digits) }
{
    let mut next = digits;
    for i in 0..len {
        let carried = over(&digits[i + 1..len], gates);
        next[i] = digit(gates, digits[i], carried);
    }
    next
}

// The place after this one: the next layout, or the next list of the same length, or the first list with one gate more. `gates` and
// `layouts` are how many of them there are; a list has at most `most` gates.
pub fn advance(at: Place, gates: usize, layouts: usize, most: usize) -> Option<Place>
    requires len_bound { (at.len ≤ 12) × (most ≤ 12) }
    requires gates_nonzero { ((0 < gates) × (gates ≤ 75)) × ((0 < layouts) × (layouts ≤ 24)) }
    ensures result_value { (P : Problem) → gates ≡ length P.gates → layouts ≡ length P.layouts → most ≡ P.most_gates
        → remaining P result ≡ after_at P at }
    ensures len_bound_2 { IfSome result (λ place. place.len ≤ 12) }
{
    let Place {
        len,
        digits,
        layout,
    } = at;
    let next = usize::from(layout) + 1;
    if next < layouts {
        let layout = next as u8;
        return Some(Place {
            len,
            digits,
            layout,
        });
    }
    if !over(&digits[..len], gates) {
        let digits = bump(digits, len, gates);
        let layout = 0;
        return Some(Place {
            len,
            digits,
            layout,
        });
    }
    if len < most {
        return Some(Place {
            len: len + 1,
            digits: [0; 12],
            layout: 0,
        });
    }
    None
}

// The gates of the list at a place, from a table of gates.
pub fn gates_at(at: Place, table: &[u8]) -> [u8; 12]
    requires { at.len ≤ 12 }
    ensures { take at.len result ≡ chosen table.now (digits_at at) }
{
    let mut path = [0; 12];
    for i in 0..at.len {
        path[i] = logic::at(table, usize::from(at.digits[i]));
    }
    path
}
