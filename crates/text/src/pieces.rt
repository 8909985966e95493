// Pieces of a text laid into a buffer: bytes, words and decimal numbers. Each function writes from index `i` on and answers the index at
// which the next piece goes.
ghost use Rattle.std.specs.Prelude.{[], ◌∷◌, ◌+◌, ◌<◌, ◌≤◌, length};
ghost use Rattle.text.specs.pieces.Text.{place, decimal, spaced};
ghost use Rattle.text.specs.pieces.Writing.{Wrote};

// Writes one byte.
#[tactic(auto, using(crate::proofs::pieces::Pieces::one))]
pub fn put(out: &mut [u8], i: usize, byte: u8) -> usize
    requires { i < length out.old }
    ensures { Wrote out.old i (byte ∷ []) out.new result }
{
    out[i] = byte;
    i + 1
}

// Writes a text.
pub fn put_text(out: &mut [u8], i: usize, text: &[u8]) -> usize
    requires { i + length text.now ≤ length out.old }
    ensures { Wrote out.old i text.now out.new result }
{
    let end = i + text.len();
    out[i..end].copy_from_slice(text);
    end
}

// Writes the digit of one place, 1, 10, 100 and so on, if the number reaches that place.
#[tactic(auto, using(crate::proofs::pieces::Pieces::none), unfolding(crate::specs::pieces::Text::place))]
pub fn put_place(out: &mut [u8], i: usize, n: usize, p: usize) -> usize
    requires i_in_bounds { i < length out.old }
    requires p_nonzero { 0 < p }
    ensures { Wrote out.old i (place n p) out.new result }
{
    if p <= n {
        put(out, i, b'0' + (n / p % 10) as u8)
    } else {
        i
    }
}

// Writes a number below 100,000, without leading zeros.
#[tactic(auto, using(crate::proofs::pieces::Pieces::place_short))]
pub fn put_decimal(out: &mut [u8], i: usize, n: usize) -> usize
    requires { i + 5 ≤ length out.old }
    ensures { Wrote out.old i (decimal n) out.new result }
{
    let a = put_place(out, i, n, 10000);
    let b = put_place(out, a, n, 1000);
    let c = put_place(out, b, n, 100);
    let d = put_place(out, c, n, 10);
    put(out, d, b'0' + (n % 10) as u8)
}

// Writes a number and a space after it.
#[tactic(auto, using(crate::proofs::pieces::Pieces::decimal_short))]
pub fn put_spaced(out: &mut [u8], i: usize, n: usize) -> usize
    requires { i + 6 ≤ length out.old }
    ensures { Wrote out.old i (spaced n) out.new result }
{
    let end = put_decimal(out, i, n);
    put(out, end, b' ')
}
