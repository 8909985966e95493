// Reads RevLib `.real` text into a circuit record. This root has the public call `read`.
// - `gate_lines`: one line of the body: `.end` or a gate line, and a line's gate byte.
// - `gate_words`: the letters of a gate line: whether they are different and declared, and the gate byte that they make.
// - `heading`: all lines before the first gate: `.version`, `.numvars`, `.variables`, `.constants`, `.begin`.
// - `keywords`: fixed byte strings compared with the start of a text: the keywords, a whole gate line, `.end`.
// - `reader`: the reader with its place in the text, through which heading and gate lines are read one after the other.
#![tactic(auto)]

pub mod gate_lines;
pub mod gate_words;
pub mod heading;
pub mod keywords;
pub mod reader;

ghost use Rattle.std.specs.Prelude.{◌≡◌, ◌≤◌, length, IfOk};
ghost use Rattle.record.specs.Answers.{reply};
ghost use Rattle.revlib.specs.Reading.{parse, outcome_of, read_of, size_of, written};
ghost use Rattle.revlib_reader.specs.Inner.{CircuitIs};

use crate::reader::Text;
use record::refusal::Refusal;
use record::{refusal, writing};
use table::layouts;

// What a text says: the data wires, ancillas and gates of a circuit.
#[derive(Clone, Copy)]
struct Circuit {
    n: usize,
    m: usize,
    count: usize,
    gates: [u8; 12],
}

// Reads a text of at most 4,096 bytes.
fn parse(text: &[u8]) -> Result<Circuit, Refusal>
    requires { length text.now ≤ 4096 }
    ensures { CircuitIs (outcome_of (parse text.now)) result }
{
    let Text { head, body } = reader::scan(text).ok().ok_or(Refusal::TextForm)?;
    refusal::kept(body.count <= 12, Refusal::TextGates)?;
    let gates = body.gates;
    Ok(Circuit {
        n: head.wires - head.ancillas,
        m: head.ancillas,
        count: body.count,
        gates,
    })
}

// Reads a `.real` text into a circuit record with plain layout, written from byte 0 of `answer`, and returns its length.
#[tactic(auto, unfolding(revlib::specs::Reading::read_of))]
pub fn read(text: &[u8], answer: &mut [u8]) -> Result<usize, Refusal>
    ensures result_value { reply result ≡ size_of (read_of text.now (length answer.old)) }
    ensures result_bound { IfOk result (λ size. size ≤ 15) }
    ensures answer_after { answer.new ≡ written (read_of text.now (length answer.old)) answer.old }
{
    refusal::kept(15 <= answer.len(), Refusal::AnswerRoom)?;
    refusal::kept(text.len() <= 4096, Refusal::TextForm)?;
    let c = parse(text)?;
    let gates = c.gates;
    Ok(writing::write_record(c.n, c.m, false, layouts::plain(c.n), gates, c.count, answer))
}
