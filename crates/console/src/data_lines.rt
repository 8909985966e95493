// The lines of a data file: the file read, its lines and their words found, bytes in hexadecimal read and said.
ghost use Rattle.std.specs.Prelude.{◌≡◌, ◌+◌, ◌≤◌, ◌<◌, min, length};
ghost use Rattle.io.specs.Counts.{IsPrefixLen};
ghost use Rattle.logic.specs.Lists.{all_of};
ghost use Rattle.console.specs.data_lines.Words.{is_digit, is_byte, is_dash, is_bytes, is_word};

use crate::{input, output};
use std::array;
use std::rt::Files;

// Reads a file into a lent buffer, and answers how many bytes it has. Complains of a file that cannot be read, which counts as an empty
// one, and of one that fills the buffer, since there may be more of it.
pub fn read_file(rt: &(impl Files + Print), name: &[u8], buffer: &mut [u8]) -> usize
    ensures { IsPrefixLen result buffer.new }
{
    let Some(mut file) = input::open(rt, name) else {
        output::say_unreadable(rt, name);
        return 0;
    };
    let n = input::read_full(&mut file, buffer);
    if n == buffer.len() {
        output::complain(rt, b"too long ", name);
    }
    n
}

// Says a line that is no call: a heading, which begins with `#`, as it is, and for any other `bad line` and its number, so that a slip in
// the data is seen.
pub fn say_other(rt: &impl Print, line: &[u8], number: usize) {
    if line.starts_with(b"#") {
        output::say(rt, line);
    } else {
        output::say_count(rt, b"bad line ", number as u64);
    }
}

// Whether a word is one byte: two upper-case digits.
#[tactic(auto, unfolding(crate::specs::data_lines::Words::is_byte))]
pub fn is_byte(word: &[u8]) -> bool
    ensures { result ≡ is_byte word.now }
{
    word.len() == 2 && is_digits(word)
}

// Whether a word is a dash, which stands for no bytes.
#[tactic(auto, unfolding(crate::specs::data_lines::Words::is_dash))]
fn is_dash(word: &[u8]) -> bool
    ensures { result ≡ is_dash word.now }
{
    word.len() == 1 && word[0] == b'-'
}

// Whether a word is pairs of upper-case digits, at most so many digits.
#[tactic(auto, unfolding(crate::specs::data_lines::Words::is_bytes))]
fn is_bytes(word: &[u8], most: usize) -> bool
    ensures { result ≡ is_bytes word.now most }
{
    !word.is_empty() && word.len() % 2 == 0 && word.len() <= most && is_digits(word)
}

// Whether a word is bytes: `-` for none, or else pairs of upper-case digits, at most so many digits.
#[tactic(auto, unfolding(crate::specs::data_lines::Words::is_word))]
pub fn is_word(word: &[u8], most: usize) -> bool
    ensures { result ≡ is_word word.now most }
{
    is_dash(word) || is_bytes(word, most)
}

fn is_digits(word: &[u8]) -> bool
    ensures { result ≡ all_of is_digit word.now }
{
    word.iter().all(|&b| is_digit(b))
}

#[tactic(auto, unfolding(crate::specs::data_lines::Words::is_digit))]
fn is_digit(b: u8) -> bool
    ensures { result ≡ is_digit b }
{
    matches!(b, b'0'..=b'9' | b'A'..=b'F')
}

// Says a byte as two digits.
pub fn say_byte(rt: &impl Print, value: u8) {
    let _ = print!(rt; "{value:02X}");
}

// Says each byte as two digits, or `-` where there is none.
pub fn say_bytes(rt: &impl Print, bytes: &[u8]) {
    if bytes.is_empty() {
        output::say(rt, b"-");
    }
    for &b in bytes {
        say_byte(rt, b);
    }
}

// Where `b` first stands at `from` or later, or the end.
pub fn find(s: &[u8], from: usize, b: u8) -> usize
    requires { from ≤ length s.now }
    ensures { (from ≤ result) × (result ≤ length s.now) }
{
    match s[from..].iter().position(|&x| x == b) {
        Some(n) => from + n,
        None => s.len(),
    }
}

// The place after `i`, or the end.
pub fn past(s: &[u8], i: usize) -> usize
    ensures { result ≡ min (i + 1) (length s.now) }
{
    if i < s.len() { i + 1 } else { s.len() }
}

// Puts the bytes that pairs of digits write at the start of `out`, as many as fit, and answers how many. `-` writes none.
pub fn decode(digits: &[u8], out: &mut [u8]) -> usize
    ensures { IsPrefixLen result out.new }
{
    for (byte, pair) in out.iter_mut().zip(digits.chunks_exact(2)) {
        *byte = 16 * digit(pair[0]) + digit(pair[1]);
    }
    out.len().min(digits.len() / 2)
}

// What an upper-case hexadecimal digit stands for.
fn digit(b: u8) -> u8
    ensures { result < 16 }
{
    match b {
        b'0'..=b'9' => b - b'0',
        b'A'..=b'F' => b - b'A' + 10,
        _ => 0,
    }
}

// A buffer for an answer: byte i holds 0xA0 + i, modulo 256, so that a byte that a call writes or leaves alone by mistake is seen.
pub fn numbered() -> [u8; 4096]
    ensures { 4096 ≡ length result }
{
    array::from_fn(|i| ((i + 160) % 256) as u8)
}
