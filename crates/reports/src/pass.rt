// The two lines of a pass, and the report on an answer of `verify`: these lines, or those of a refusal.
ghost use Rattle.std.specs.Prelude.{◌≡◌, ◌+◌, ◌≤◌, length};
ghost use Rattle.text.specs.pieces.Text.{in_front};
ghost use Rattle.text.specs.pieces.Writing.{Wrote};
ghost use Rattle.reports.specs.refusal.Report.{passed_line, times, ready_line, passed_text, numbered, report_of};

use crate::refusal;
use circuit::measures::Measures;
use text::pieces;
use text::pieces::put_text;

// Writes `passed`, the gates, the cost and the depth at the start of the buffer.
fn put_passed(out: &mut [u8], m: Measures) -> usize
    requires { 25 ≤ length out.old }
    ensures { Wrote out.old 0 (passed_line m) out.new result }
{
    let a = put_text(out, 0, b"passed ");
    let b = pieces::put_spaced(out, a, m.gates as usize);
    let c = pieces::put_spaced(out, b, m.cost as usize);
    let d = pieces::put_decimal(out, c, m.depth as usize);
    pieces::put(out, d, b'\n')
}

// Writes the ready times of five wires, with spaces between them.
fn put_times(out: &mut [u8], i: usize, m: Measures) -> usize
    requires { i + 29 ≤ length out.old }
    ensures { Wrote out.old i (times m) out.new result }
{
    let a = pieces::put_spaced(out, i, m.ready0 as usize);
    let b = pieces::put_spaced(out, a, m.ready1 as usize);
    let c = pieces::put_spaced(out, b, m.ready2 as usize);
    let d = pieces::put_spaced(out, c, m.ready3 as usize);
    pieces::put_decimal(out, d, m.ready4 as usize)
}

// Writes `ready` and the ready times.
fn put_ready(out: &mut [u8], i: usize, m: Measures) -> usize
    requires { i + 36 ≤ length out.old }
    ensures { Wrote out.old i (ready_line m) out.new result }
{
    let a = put_text(out, i, b"ready ");
    let b = put_times(out, a, m);
    pieces::put(out, b, b'\n')
}

// Writes the two lines of a pass at the start of the buffer, and answers their length.
pub fn passed_text(m: Measures, out: &mut [u8]) -> usize
    requires { 128 ≤ length out.old }
    ensures value { result ≡ length (passed_text m) }
    ensures out_after { out.new ≡ in_front (passed_text m) out.old }
{
    let a = put_passed(out, m);
    put_ready(out, a, m)
}

// Writes the report on an answer of `verify` at the start of the buffer, and answers its length. A refusal is given by its number, and any
// number will do: those above the last rule have a meaning too.
pub fn report(answer: Result<Measures, u8>, out: &mut [u8]) -> usize
    requires { 128 ≤ length out.old }
    ensures value { result ≡ length (report_of (numbered answer)) }
    ensures upper_bound { result ≤ 128 }
    ensures out_after { out.new ≡ in_front (report_of (numbered answer)) out.old }
{
    match answer {
        Ok(m) => passed_text(m, out),
        Err(code) => refusal::refused_text(code, out),
    }
}
