// The lines of `gazbolk compare`: the difference of two circuits' costs, and the circuits.
ghost use Rattle.std.specs.Prelude.{◌≡◌, ◌+◌, ◌≤◌, length};
ghost use Rattle.text.specs.pieces.Text.{found_line, in_front};
ghost use Rattle.text.specs.pieces.Writing.{Wrote};
ghost use Rattle.printed.specs.differences.Differences.{sign, change_line, both_lines};

use circuit::measures::Measures;
use sensitivity::difference;
use text::pieces;

// Writes the sign of a difference, and answers the index after it.
fn put_sign(out: &mut [u8], i: usize, difference: i32) -> usize
    requires { i + 1 ≤ length out.old }
    ensures { Wrote out.old i (sign difference) out.new result }
{
    if difference::is_negative(difference) {
        return pieces::put(out, i, b'-');
    }
    if difference::distance(difference) == 0 {
        return i;
    }
    pieces::put(out, i, b'+')
}

// Writes `by` and the difference at the start of the buffer, and answers the index after the line.
fn put_change(out: &mut [u8], difference: i32) -> usize
    requires { 10 ≤ length out.old }
    ensures { Wrote out.old 0 (change_line difference) out.new result }
{
    let a = pieces::put_text(out, 0, b"by ");
    let b = put_sign(out, a, difference);
    let c = pieces::put_decimal(out, b, difference::distance(difference) as usize);
    pieces::put(out, c, b'\n')
}

// Writes the line of a circuit that was found, and answers the index after it.
pub fn put_found(out: &mut [u8], i: usize, m: Measures, circuit: &[u8]) -> usize
    requires circuit_len_bound { length circuit.now ≤ 15 }
    requires i_in_bounds { i + 64 ≤ length out.old }
    ensures { Wrote out.old i (found_line m circuit.now) out.new result }
{
    let mut line = [0u8; 64];
    let size = text::found_line(m, circuit, &mut line);
    pieces::put_text(out, i, &line[..size])
}

// Writes the difference of two circuits' costs and both their lines at the start of the buffer, and answers the length.
pub fn put_both(m: Measures, circuit: &[u8], k: Measures, other: &[u8], out: &mut [u8]) -> usize
    requires circuit_len_bound { length circuit.now ≤ 15 }
    requires other_len_bound { length other.now ≤ 15 }
    requires in_bounds { 256 ≤ length out.old }
    ensures value { result ≡ length (both_lines m circuit.now k other.now) }
    ensures out_after { out.new ≡ in_front (both_lines m circuit.now k other.now) out.old }
{
    let a = put_change(out, difference::cost_difference(m.cost, k.cost));
    let b = put_found(out, a, m, circuit);
    put_found(out, b, k, other)
}
