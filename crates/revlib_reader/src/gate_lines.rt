// Reads one line of the body of a `.real` text, on a slice and an index.
ghost use Rattle.std.specs.Prelude.{◌≡◌, ◌≤◌, length, drop};
ghost use Rattle.revlib_reader.specs.gate_lines.Tokens.{line_of, gate_of};

use crate::{gate_words, keywords};

// A line of the body that is in order: a gate line, by its gate byte and its length, or the `.end` that ends the text.
#[derive(Clone, Copy)]
pub enum Line {
    Gate { byte: u8, size: usize },
    End,
}

// The gate line at the start of a text, if one stands there.
#[tactic(auto, using(crate::proofs::Lines::unannounced), unfolding(revlib::specs::Reading::line_at, revlib::specs::Reading::line_here))]
fn gate_line(s: &[u8], letters: &[u8]) -> Option<Line>
    requires { length letters.now ≤ 5 }
    ensures { result ≡ gate_of letters.now s.now }
{
    let count = keywords::announced(s)?;
    let all = [logic::at(s, 3), logic::at(s, 5), logic::at(s, 7)];
    let line = &all[..count];
    if !gate_words::line_ok(letters, line) || !keywords::line_starts(s, line) {
        return None;
    }
    Some(Line::Gate {
        byte: gate_words::gate_byte(letters, line),
        size: 3 + 2 * count,
    })
}

// The line of the body at index `at` of the text, or `None` where it departs from the form.
#[tactic(auto, unfolding(crate::specs::gate_lines::Tokens::line_of))]
pub fn line_at(s: &[u8], at: usize, letters: &[u8]) -> Option<Line>
    requires { length letters.now ≤ 5 }
    ensures { result ≡ line_of letters.now (drop at s.now) }
{
    let text = keywords::rest(s, at);
    if keywords::end_here(text) {
        Some(Line::End)
    } else {
        gate_line(text, letters)
    }
}
