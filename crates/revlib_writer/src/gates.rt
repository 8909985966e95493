// The gate lines of a `.real` text and its `.end`, measured and written into a caller's buffer.
ghost use Rattle.std.specs.Prelude.{◌≡◌, true, map, ◌+◌, ◌≤◌, ◌<◌, length};
ghost use Rattle.logic.specs.Lists.{all_of};
ghost use Rattle.gate.specs.Gates.{lawful};
ghost use Rattle.text.specs.pieces.Writing.{Wrote};
ghost use Rattle.revlib.specs.Grammar.{gate_line, body};
ghost use Rattle.revlib.specs.Writing.{letter, line_for};

use gate::Kind;
use text::pieces;

// The letter of a wire.
fn letter(w: usize) -> u8
    requires { w < 5 }
    ensures { result ≡ letter w }
{
    b'a' + w as u8
}

// The length of a gate's line.
fn line_size(b: u8) -> usize
    ensures value { result ≡ length (gate_line (line_for b)) }
    ensures upper_bound { result ≤ 11 }
{
    match gate::decode(b).kind {
        Kind::Not => 5,
        Kind::Cnot(_) => 7,
        Kind::Toffoli(_, _) => 9,
        Kind::Cccnot(_, _, _) => 11,
    }
}

// The length of the gate lines and `.end`.
#[tactic(auto, using(crate::proofs::gates::Lines::sizes))]
pub fn body_size(gates: &[u8]) -> usize
    requires { length gates.now ≤ 12 }
    ensures value { result ≡ length (body (map line_for gates.now)) }
    ensures upper_bound { result ≤ 137 }
{
    5 + gates.iter().map(|&b| line_size(b)).sum::<usize>()
}

// Writes the gate line of these letters at index `i`, and returns the next index.
fn put_letters(out: &mut [u8], i: usize, letters: &[u8]) -> usize
    requires few { length letters.now ≤ 3 }
    requires in_bounds { i + length (gate_line letters.now) ≤ length out.old }
    ensures { Wrote out.old i (gate_line letters.now) out.new result }
{
    let digit = b'0' + letters.len() as u8;
    let mut at = pieces::put_text(out, i, &[b't', digit]);
    for &x in letters {
        at = pieces::put_text(out, at, &[b' ', x]);
    }
    pieces::put_text(out, at, b"\n")
}

// Writes a gate's line at index `i`, and returns the next index.
fn put_line(out: &mut [u8], i: usize, b: u8) -> usize
    requires b_value { lawful 2 5 b ≡ true }
    requires b_in_bounds { i + length (gate_line (line_for b)) ≤ length out.old }
    ensures { Wrote out.old i (gate_line (line_for b)) out.new result }
{
    let g = gate::decode(b);
    let t = letter(g.target);
    match g.kind {
        Kind::Not => put_letters(out, i, &[t]),
        Kind::Cnot(a) => put_letters(out, i, &[letter(a), t]),
        Kind::Toffoli(a, d) => put_letters(out, i, &[letter(a), letter(d), t]),
        // A lawful gate has at most two controls here.
        Kind::Cccnot(_, _, _) => unreachable!(),
    }
}

// Writes the gate lines and `.end` at index `i`, and returns the next index.
pub fn put_body(out: &mut [u8], i: usize, gates: &[u8]) -> usize
    requires gates_value { all_of (lawful 2 5) gates.now ≡ true }
    requires gates_in_bounds { i + length (body (map line_for gates.now)) ≤ length out.old }
    ensures { Wrote out.old i (body (map line_for gates.now)) out.new result }
{
    let mut at = i;
    for &b in gates {
        at = put_line(out, at, b);
    }
    pieces::put_text(out, at, b".end\n")
}
