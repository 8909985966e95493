// Bytes in upper-case hexadecimal, laid into a buffer.
ghost use Rattle.std.specs.Prelude.{◌≡◌, ◌+◌, ◌*◌, ◌<◌, ◌≤◌, length};
ghost use Rattle.text.specs.pieces.Text.{hex_digit, hex_of};
ghost use Rattle.text.specs.pieces.Writing.{Wrote};

// The digit of a number below 16.
#[tactic(auto, unfolding(crate::specs::pieces::Text::hex_digit))]
fn hex_digit(d: u8) -> u8
    requires { d < 16 }
    ensures { result ≡ hex_digit d }
{
    if d < 10 { b'0' + d } else { b'A' - 10 + d }
}

// Writes two digits for each byte, the high one first, from index `i` on, and answers the index after them.
pub fn put_hex(out: &mut [u8], i: usize, bytes: &[u8]) -> usize
    requires { i + 2 * length bytes.now ≤ length out.old }
    ensures { Wrote out.old i (hex_of bytes.now) out.new result }
{
    for (k, &b) in bytes.iter().enumerate() {
        let high = hex_digit(b / 16);
        let low = hex_digit(b % 16);
        out[i + 2 * k] = high;
        out[i + 2 * k + 1] = low;
    }
    i + 2 * bytes.len()
}
