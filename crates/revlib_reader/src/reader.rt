// The reader that document 01 asks for: a text and a position in it. It is made once for a text, the heading and each line of the body are
// read through it, and each of these calls moves it behind what it read.
ghost use Rattle.std.specs.Prelude.{◌≡◌, ◌+◌, ◌≤◌, ◌<◌, length, set, IfOk};
ghost use Rattle.revlib_reader.specs.heading.Heading.{HeadingTold};
ghost use Rattle.revlib_reader.specs.reader.Steps.{letters_of, line_in, behind, BodyIs, TextIs};

use crate::gate_lines;
use crate::gate_lines::Line;
use crate::heading::Heading;

// The gate lines of a body that is in order: how many there are, and the gate bytes of the first twelve. The count goes on past those, so
// it is not the length of `gates`.
#[derive(Clone, Copy)]
pub struct Body {
    pub count: usize,
    pub gates: [u8; 12],
}

impl Body {
    // One gate line more. Its byte is kept where there is room.
    fn push(&mut self, byte: u8)
        requires { self.old.count < 4096 }
        ensures count { self.new.count ≡ self.old.count + 1 }
        ensures gates { self.new.gates ≡ set self.old.gates self.old.count byte }
    {
        if self.count < 12 {
            self.gates[self.count] = byte;
        }
        self.count += 1;
    }
}

// A text that is in order up to its closing `.end`.
#[derive(Clone, Copy)]
pub struct Text {
    pub head: Heading,
    pub body: Body,
}

// Where a text departs from the form: in its heading, of which this was read all the same, or behind this heading, which is in order.
#[derive(Clone, Copy)]
pub enum Departure {
    Heading(Heading),
    Body(Heading),
}

// A text and a position in it.
#[derive(Clone, Copy)]
struct Reader<'a> {
    src: &'a [u8],
    at: usize,
}

impl<'a> Reader<'a> {
    // A reader at the start of a text.
    fn new(src: &'a [u8]) -> Reader<'a>
        ensures { (result.src ≡ src.entry) × (result.at ≡ 0) }
    {
        Reader { src, at: 0 }
    }

    // Reads the heading of a text, by a reader that stands at its start.
    fn heading(&mut self) -> Result<Heading, Heading>
        requires { self.old.at ≡ 0 }
        ensures heading { HeadingTold self.old.src.now result }
        ensures src { self.new.src ≡ self.old.src }
        ensures at { IfOk result (λ h. self.new.at ≡ h.end) }
    {
        let head = Heading::read_heading(self.src)?;
        self.at = head.end;
        Ok(head)
    }

    // Reads the line at the reader's position. Past the end, or past the longest text that is read, no line is in order.
    #[tactic(auto, unfolding(crate::specs::reader::Steps::line_in))]
    fn next(&mut self, head: &Heading) -> Option<Line>
        ensures line { result ≡ line_in (letters_of head.now) self.old.src.now self.old.at }
        ensures src { self.new.src ≡ self.old.src }
        ensures at { self.new.at ≡ behind self.old.at result }
    {
        if self.at >= self.src.len() || self.at >= 4096 {
            return None;
        }
        let line = gate_lines::line_at(self.src, self.at, head.letters())?;
        if let Line::Gate { size, .. } = line {
            self.at += size;
        }
        Some(line)
    }

    // Reads the lines of the body, from the reader's position up to `.end`.
    fn body(&mut self, head: &Heading) -> Option<Body>
        ensures { length self.old.src.now ≤ 4096 → BodyIs (letters_of head.now) self.old.src.now self.old.at result }
    {
        let mut body = Body {
            count: 0,
            gates: [0; 12],
        };
        loop {
            match self.next(head) {
                Some(Line::Gate { byte, .. }) => body.push(byte),
                Some(Line::End) => return Some(body),
                None => return None,
            }
        }
    }
}

// Reads a text through one reader. A text that is not in order says where it departs from the form.
pub fn scan(text: &[u8]) -> Result<Text, Departure>
    ensures { TextIs text.now result }
{
    let mut reader = Reader::new(text);
    let head = reader.heading().map_err(Departure::Heading)?;
    let body = reader.body(&head).ok_or(Departure::Body(head))?;
    Ok(Text { head, body })
}
