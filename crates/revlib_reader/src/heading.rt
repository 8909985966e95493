// Reads the heading of a `.real` text: `.version 2.0`, `.numvars`, `.variables`, the optional `.constants`, and `.begin`. The number of
// wires fixes the place of everything after it. So the fields are first read off their places, and then the whole heading that they
// make is compared with the text.
ghost use Rattle.std.specs.Prelude.{◌≡◌, ◌+◌, ◌≤◌, length, take};
ghost use Rattle.table.specs.layouts.Layouts.{Width};
ghost use Rattle.logic.specs.Lists.{all_of};
ghost use Rattle.revlib.specs.Grammar.{lower_case, numvars_line, ancilla_count};
ghost use Rattle.revlib.specs.Reading.{starts, names_at, constants_at};
ghost use Rattle.revlib_reader.specs.heading.Inner.{opening, closing, dashes, dashed, five_at, names_ok, headed, said_by, end_of};

use crate::{gate_words, keywords};

// What stands in the places of a heading: the declared letters, the number of wires and ancillas, and where the gate lines begin.
#[derive(Clone, Copy)]
pub struct Heading {
    pub names: [u8; 5],
    pub wires: usize,
    pub ancillas: usize,
    pub end: usize,
    // Each wire has a declared letter.
    pub ghost few: { wires ≤ 5 },
}

impl Heading {
    ghost use Rattle.revlib_reader.specs.heading.Heading.{HeadingRead, HeadingTold};

    // Reads the heading of a text, if it is in order.
    pub fn read(s: &[u8]) -> Option<Heading>
        ensures { HeadingRead s.now result }
    {
        Heading::read_heading(s).ok()
    }

    // Reads the heading of a text. Where it is not in order, what stands in its places was read all the same, and comes back as `Err`.
    pub fn read_heading(s: &[u8]) -> Result<Heading, Heading>
        ensures { HeadingTold s.now result }
    {
        let wires = name_count(s);
        let constants = Constants::read(s, wires);
        let head = Heading {
            names: names(s),
            wires,
            ancillas: constants.ancillas(),
            end: constants.end(wires),
        };
        if heading_here(s, head.letters(), constants) {
            Ok(head)
        } else {
            Err(head)
        }
    }

    // The declared letters.
    pub fn letters(&self) -> &[u8]
        ensures value { result.now ≡ take self.now.wires self.now.names }
        ensures few { length result.now ≤ 5 }
    {
        &self.names[..self.wires]
    }
}

// The `.constants` line: left out, with a dash for each wire, or with a dash for each data wire and a closing 0 for the ancilla.
#[derive(Clone, Copy)]
enum Constants {
    Unsaid,
    AllData,
    OneAncilla,
}

impl Constants {
    // The `.constants` line of a text with `w` letters, by the keyword behind them and the last byte of its word.
    #[tactic(auto, unfolding(revlib::specs::Reading::constants_at))]
    fn read(s: &[u8], w: usize) -> Constants
        requires { w ≤ 5 }
        ensures { said_by result ≡ constants_at s.now w }
    {
        if !keywords::starts(keywords::rest(s, 35 + 2 * w), b".constants ") {
            Constants::Unsaid
        } else if logic::at(s, 45 + 3 * w) == b'0' {
            Constants::OneAncilla
        } else {
            Constants::AllData
        }
    }

    // The number of ancillas that it says.
    fn ancillas(self) -> usize
        ensures value { result ≡ ancilla_count (said_by self) }
        ensures upper_bound { result ≤ 1 }
    {
        match self {
            Constants::OneAncilla => 1,
            _ => 0,
        }
    }

    // The length of a heading of `w` wires with this line, which is where the gate lines begin.
    fn end(self, w: usize) -> usize
        requires { w ≤ 5 }
        ensures { result ≡ end_of w (said_by self) }
    {
        match self {
            Constants::Unsaid => 42 + 2 * w,
            _ => 54 + 3 * w,
        }
    }

    // Whether a text begins with what follows the letters of `n` data wires: this line, then `.begin`.
    #[tactic(auto, using(crate::proofs::heading::Headings::closings))]
    fn here(self, s: &[u8], n: usize) -> bool
        requires { Width n }
        ensures { result ≡ starts (closing (n + ancilla_count (said_by self)) (said_by self)) s.now }
    {
        match self {
            Constants::Unsaid => keywords::starts(s, b".begin\n"),
            Constants::AllData => dashes_here(s, n, b"\n.begin\n"),
            Constants::OneAncilla => dashes_here(s, n, b"0\n.begin\n"),
        }
    }
}

// The dashes of that line, one for each of `n` wires.
fn dashes(n: usize) -> &'static [u8]
    requires { n ≤ 4 }
    ensures { result.now ≡ dashes n }
{
    &b"----"[..n]
}

// Whether a text begins with `.constants`, `n` dashes and this end.
#[tactic(auto, using(crate::proofs::heading::Headings::dashes_pieces))]
fn dashes_here(s: &[u8], n: usize, end: &[u8]) -> bool
    requires { n ≤ 4 }
    ensures { result ≡ starts (dashed n end.now) s.now }
{
    keywords::starts(s, b".constants ")
        && keywords::starts(keywords::rest(s, 11), dashes(n))
        && keywords::starts(keywords::rest(s, 11 + n), end)
}

// The bytes at the five places where a declared letter can stand, written out as in its clause.
#[tactic(auto, unfolding(crate::specs::heading::Inner::five_at))]
fn names(s: &[u8]) -> [u8; 5]
    ensures { result ≡ five_at s.now }
{
    [
        logic::at(s, 35),
        logic::at(s, 37),
        logic::at(s, 39),
        logic::at(s, 41),
        logic::at(s, 43),
    ]
}

// The number of declared letters, by the digit after `.numvars`; at most five.
#[tactic(auto, using(crate::proofs::heading::Headings::name_number))]
fn name_count(s: &[u8]) -> usize
    ensures value { result ≡ length (names_at s.now) }
    ensures upper_bound { result ≤ 5 }
{
    usize::from(logic::at(s, 22)).saturating_sub(48).min(5)
}

// Whether all letters are lower case.
fn all_lower(letters: &[u8]) -> bool
    ensures { result ≡ all_of lower_case letters.now }
{
    letters.iter().all(|x| x.is_ascii_lowercase())
}

// Whether there are three or four data wires and the letters are different and lower case.
#[tactic(auto, unfolding(crate::specs::heading::Inner::names_ok))]
fn heading_ok(letters: &[u8], n: usize) -> bool
    ensures { result ≡ names_ok letters.now n }
{
    (n == 3 || n == 4) && gate_words::different(letters) && all_lower(letters)
}

// Whether the text begins with the `.numvars` line of `w` wires.
#[tactic(auto, using(crate::proofs::heading::Headings::numvars_pieces))]
fn numvars_here(s: &[u8], w: usize) -> bool
    requires { w ≤ 5 }
    ensures { result ≡ starts (numvars_line w) s.now }
{
    let digit = b'0' + w as u8;
    keywords::starts(s, b".numvars ") && keywords::starts(keywords::rest(s, 9), &[digit, b'\n'])
}

// Whether the text begins with all that stands before the letters of `w` wires.
#[tactic(auto, using(crate::proofs::heading::Headings::opening_pieces))]
fn opening_here(s: &[u8], w: usize) -> bool
    requires { w ≤ 5 }
    ensures { result ≡ starts (opening w) s.now }
{
    keywords::starts(s, b".version 2.0\n")
        && numvars_here(keywords::rest(s, 13), w)
        && keywords::starts(keywords::rest(s, 24), b".variables")
}

// Whether these letters and constants are in order and the text begins with the heading that they make.
fn heading_here(s: &[u8], letters: &[u8], constants: Constants) -> bool
    requires { length letters.now ≤ 5 }
    ensures { result ≡ headed letters.now (said_by constants) s.now }
{
    let w = letters.len();
    let n = w.saturating_sub(constants.ancillas());
    if !heading_ok(letters, n) {
        return false;
    }
    opening_here(s, w)
        && keywords::letters_here(keywords::rest(s, 34), letters)
        && constants.here(keywords::rest(s, 35 + 2 * w), n)
}
