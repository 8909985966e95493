// The two lines of `gazbolk closest`: how many wanted bits a circuit misses, and the circuit.
ghost use Rattle.std.specs.Prelude.{◌≡◌, ◌≤◌, length};
ghost use Rattle.text.specs.pieces.Text.{in_front};
ghost use Rattle.text.specs.pieces.Writing.{Wrote};
ghost use Rattle.printed.specs.misses.Closeness.{misses_line};
ghost use Rattle.printed.specs.misses.Inner.{both_lines};

use crate::differences;
use circuit::measures::Measures;
use text::pieces;

// Writes `misses` and the number at the start of the buffer, and answers the index after the line.
fn put_misses(out: &mut [u8], k: usize) -> usize
    requires { 13 ≤ length out.old }
    ensures { Wrote out.old 0 (misses_line k) out.new result }
{
    let a = pieces::put_text(out, 0, b"misses ");
    let b = pieces::put_decimal(out, a, k);
    pieces::put(out, b, b'\n')
}

// Writes both lines at the start of the buffer, and answers their length.
pub fn put_close(k: usize, m: Measures, circuit: &[u8], out: &mut [u8]) -> usize
    requires circuit_len_bound { length circuit.now ≤ 15 }
    requires in_bounds { 128 ≤ length out.old }
    ensures value { result ≡ length (both_lines k m circuit.now) }
    ensures upper_bound { result ≤ 128 }
    ensures out_after { out.new ≡ in_front (both_lines k m circuit.now) out.old }
{
    let a = put_misses(out, k);
    differences::put_found(out, a, m, circuit)
}
