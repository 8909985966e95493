// Text in ASCII, written piece by piece into a lent buffer. The root has the two lines that answer a search: `found` with the
// measures and the record, and `refused` with the number.
//
// - `pieces`: bytes, words and decimal numbers, each laid into a buffer from an index on;
// - `hex`: bytes in hexadecimal, laid into a buffer.
#![tactic(auto)]

pub mod hex;
pub mod pieces;

ghost use Rattle.std.specs.Prelude.{◌≡◌, ◌+◌, ◌≤◌, length};
ghost use Rattle.text.specs.pieces.Text.{refused_line, found_line, in_front};
ghost use Rattle.text.specs.pieces.Writing.{Wrote};

use circuit::measures::Measures;

// Writes `refused` and the number from index `i` on, and answers the index after the line.
#[tactic(auto, using(crate::proofs::pieces::Pieces::decimal_short))]
pub fn put_refused(out: &mut [u8], i: usize, code: u8) -> usize
    requires { i + 14 ≤ length out.old }
    ensures { Wrote out.old i (refused_line code) out.new result }
{
    let a = pieces::put_text(out, i, b"refused ");
    let b = pieces::put_decimal(out, a, usize::from(code));
    pieces::put(out, b, b'\n')
}

// Writes `refused` and the number at the start of the buffer, and answers the line's length.
pub fn refused_line(code: u8, out: &mut [u8]) -> usize
    requires { 64 ≤ length out.old }
    ensures value { result ≡ length (refused_line code) }
    ensures out_after { out.new ≡ in_front (refused_line code) out.old }
{
    put_refused(out, 0, code)
}

// Writes `found`, the measures and the record at the start of the buffer, and answers the index after the line.
#[tactic(auto, using(crate::proofs::pieces::Pieces::spaced_short, crate::proofs::pieces::Pieces::hex_length))]
fn put_found(out: &mut [u8], m: Measures, bytes: &[u8]) -> usize
    requires bytes_len_bound { length bytes.now ≤ 15 }
    requires in_bounds { 64 ≤ length out.old }
    ensures { Wrote out.old 0 (found_line m bytes.now) out.new result }
{
    let a = pieces::put_text(out, 0, b"found ");
    let b = pieces::put_spaced(out, a, usize::from(m.gates));
    let c = pieces::put_spaced(out, b, usize::from(m.cost));
    let d = pieces::put_spaced(out, c, usize::from(m.depth));
    let e = hex::put_hex(out, d, bytes);
    pieces::put(out, e, b'\n')
}

// Writes `found`, the measures and the record at the start of the buffer, and answers the line's length.
pub fn found_line(m: Measures, bytes: &[u8], out: &mut [u8]) -> usize
    requires bytes_len_bound { length bytes.now ≤ 15 }
    requires in_bounds { 64 ≤ length out.old }
    ensures value { result ≡ length (found_line m bytes.now) }
    ensures out_after { out.new ≡ in_front (found_line m bytes.now) out.old }
{
    put_found(out, m, bytes)
}
