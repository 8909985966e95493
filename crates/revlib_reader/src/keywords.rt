// Fixed byte strings compared with the start of a text: keywords, the first word of a gate line, a whole gate line, and `.end`.
ghost use Rattle.std.specs.Prelude.{◌≡◌, ◌≤◌, length, drop, IfSome};
ghost use Rattle.revlib.specs.Grammar.{gate_line};
ghost use Rattle.revlib.specs.Reading.{starts, announced, end_here};
ghost use Rattle.revlib_reader.specs.keywords.Words.{letters_line, count_said};

// The text from index `at` on, empty past its end.
pub fn rest(s: &[u8], at: usize) -> &[u8]
    ensures { result.now ≡ drop at s.now }
{
    if at <= s.len() { &s[at..] } else { &[] }
}

// Whether a text begins with a word: the library's test, with a clause in the words of the theorems on reading.
pub fn starts(s: &[u8], word: &[u8]) -> bool
    ensures { result ≡ starts word.now s.now }
{
    s.starts_with(word)
}

// Whether a text begins with these letters, each after a space, and a line feed.
#[tactic(auto, using(crate::proofs::keywords::Beginnings::letter_turn, crate::proofs::keywords::Beginnings::letters_done))]
pub fn letters_here(s: &[u8], letters: &[u8]) -> bool
    ensures { result ≡ starts (letters_line letters.now) s.now }
{
    let mut left = s;
    for &x in letters {
        if !starts(left, &[b' ', x]) {
            return false;
        }
        left = rest(left, 2);
    }
    starts(left, b"\n")
}

// Whether a text begins with the gate line of these letters.
#[tactic(auto, using(crate::proofs::keywords::Beginnings::line_pieces))]
pub fn line_starts(s: &[u8], line: &[u8]) -> bool
    requires { (1 ≤ length line.now) × (length line.now ≤ 3) }
    ensures { result ≡ starts (gate_line line.now) s.now }
{
    let digit = b'0' + line.len() as u8;
    starts(s, &[b't', digit]) && letters_here(rest(s, 2), line)
}

// How many letters the first word of a gate line announces, where it is `t1`, `t2` or `t3`. A `match` on slice patterns is no plainer: it
// has a goal for each way past it.
#[tactic(auto, unfolding(revlib::specs::Reading::announced))]
pub fn announced(s: &[u8]) -> Option<usize>
    ensures value { result ≡ count_said (announced s.now) }
    ensures few { IfSome result (λ count. (1 ≤ count) × (count ≤ 3)) }
{
    if starts(s, b"t1") {
        return Some(1);
    }
    if starts(s, b"t2") {
        return Some(2);
    }
    if starts(s, b"t3") { Some(3) } else { None }
}

// Whether the text is `.end` and its line feed, and nothing more.
#[tactic(auto, unfolding(revlib::specs::Reading::end_here))]
pub fn end_here(s: &[u8]) -> bool
    ensures { result ≡ end_here s.now }
{
    starts(s, b".end\n") && s.len() == 5
}
