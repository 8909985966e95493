// The two lines of a refusal: its number, and the sentence on what that means.
ghost use Rattle.std.specs.Prelude.{◌≡◌, ◌≤◌, length};
ghost use Rattle.text.specs.pieces.Text.{in_front};
ghost use Rattle.reports.specs.refusal.Report.{refused_text};

use crate::meanings;
use text::pieces;

// Writes both lines at the start of the buffer, and answers their length.
pub fn refused_text(code: u8, out: &mut [u8]) -> usize
    requires { 128 ≤ length out.old }
    ensures value { result ≡ length (refused_text code) }
    ensures out_after { out.new ≡ in_front (refused_text code) out.old }
{
    let a = text::put_refused(out, 0, code);
    let b = meanings::put_meaning(out, a, code);
    pieces::put(out, b, b'\n')
}
