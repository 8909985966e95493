// Which lines are calls, and how the answers of calls are said.
use circuit::measures::Measures;
use console::{data_lines, output, slot_lines};
use outcomes::Reported;
use parity::TableParity;
use record::refusal::Refusal;

// The words of a line that is a call: its name, and up to three words that write bytes.
#[derive(Clone, Copy)]
pub struct Call<'a> {
    pub name: &'a [u8],
    pub first: &'a [u8],
    pub second: &'a [u8],
    pub third: &'a [u8],
}

// What a call takes for its second or third word.
#[derive(Clone, Copy)]
enum Word {
    Nothing,
    Byte,
    Bytes,
}

// The call that a line makes: its name, and as many words of bytes as it takes, or `None` for a line that is no call.
pub fn read(line: &[u8]) -> Option<Call<'_>> {
    let mut words = line.splitn(4, |&b| b == b' ');
    let name = words.next()?;
    let first = words.next()?;
    let second = words.next().unwrap_or(&[]);
    let third = words.next();
    let (of_second, of_third) = taken(name)?;
    let fits = is_word(first) && second_fits(of_second, second) && third_fits(of_third, third);
    let third = third.unwrap_or(&[]);
    fits.then_some(Call {
        name,
        first,
        second,
        third,
    })
}

// What the call of this name takes after its first word. A run takes a byte, its value, and so do two searches, the length of their answer
// buffer. Eight calls take bytes: a record, a library, a cost, a length or gates. After these, a search with a library and a batch take a
// byte, verifying with a library takes a record, and rewriting takes a length of two bytes.
fn taken(name: &[u8]) -> Option<(Word, Word)> {
    match name {
        b"job" | b"circuit" | b"every" | b"parity" | b"line" => {
            Some((Word::Nothing, Word::Nothing))
        }
        b"forwards" | b"backwards" | b"search" | b"nearest" => Some((Word::Byte, Word::Nothing)),
        b"measure" | b"verify" | b"difference" | b"gap" => Some((Word::Bytes, Word::Nothing)),
        b"among" | b"together" => Some((Word::Bytes, Word::Byte)),
        b"with" | b"rewrite" => Some((Word::Bytes, Word::Bytes)),
        _ => None,
    }
}

// Whether a word is bytes, at most as many as a buffer holds.
fn is_word(word: &[u8]) -> bool {
    data_lines::is_word(word, 8192)
}

// Whether the second word is what the call takes; one that is missing is empty.
fn second_fits(kind: Word, word: &[u8]) -> bool {
    match kind {
        Word::Nothing => word.is_empty(),
        Word::Byte => data_lines::is_byte(word),
        Word::Bytes => is_word(word),
    }
}

// Whether what follows the second word is what the call takes.
fn third_fits(kind: Word, word: Option<&[u8]>) -> bool {
    match word {
        None => matches!(kind, Word::Nothing),
        Some(word) => !matches!(kind, Word::Nothing) && second_fits(kind, word),
    }
}

// Says a refusal, or else the answer.
pub fn say_answer<T: Drop, F: FnOnce(T) + Drop>(rt: &impl Print, answer: Result<T, Refusal>, say: F)
    requires { F.IsAlwaysCallable say }
{
    match answer {
        Err(e) => say_refused(rt, e),
        Ok(value) => say(value),
    }
}

fn say_refused(rt: &impl Print, e: Refusal) {
    let _ = print!(rt; "refused {}", u8::from(e));
}

// Says the answer of a check.
pub fn say_checked(rt: &impl Print, answer: Result<(), Refusal>) {
    say_answer(rt, answer, |()| output::say(rt, b"sound"));
}

// Says the code of a circuit, cut to 16 bytes, with each gate count from 0 to 255 in place of its own: 0 where that makes it sound.
pub fn say_every(rt: &impl Print, circuit: &[u8]) {
    let mut record = [0u8; 16];
    let n = circuit.len().min(16);
    record[..n].copy_from_slice(&circuit[..n]);
    output::say(rt, b"codes");
    for count in 0..=255 {
        record[2] = count;
        say_code(rt, &record[..n]);
    }
}

fn say_code(rt: &impl Print, circuit: &[u8]) {
    match record::check_circuit(circuit) {
        Err(e) => output::say_count(rt, b" ", u64::from(u8::from(e))),
        Ok(()) => output::say(rt, b" 0"),
    }
}

// Says the answer of a run.
pub fn say_ran(rt: &impl Print, answer: Result<u8, Refusal>) {
    say_answer(rt, answer, |value| {
        let _ = print!(rt; "value {value:02X}");
    });
}

// Says the measures of a circuit within the limits.
pub fn say_measured(rt: &impl Print, answer: Result<Measures, Refusal>) {
    say_answer(rt, answer, |measures| {
        output::say(rt, b"within ");
        say_measures(rt, measures);
    });
}

fn say_measures(rt: &impl Print, m: Measures) {
    let _ = print!(rt; "{} {} {} ", m.gates, m.cost, m.depth);
    slot_lines::say_ready(rt, m);
}

pub fn say_difference(rt: &impl Print, difference: i32) {
    let _ = print!(rt; "by {difference}");
}

// The number in the first two bytes, high byte first.
pub fn number_in(bytes: &[u8]) -> u16 {
    u16::from_be_bytes([logic::at(bytes, 0), logic::at(bytes, 1)])
}

// Says the answer of `parity`.
pub fn say_parity(rt: &impl Print, answer: Result<TableParity, Refusal>) {
    say_answer(rt, answer, |parity| {
        let word = match parity {
            TableParity::Even => b"even".as_slice(),
            TableParity::Odd => b"odd".as_slice(),
            TableParity::Neither => b"neither".as_slice(),
        };
        output::say(rt, word);
    });
}

// Says the record's length and the measures of a circuit that was found.
pub fn say_found(rt: &impl Print, found: Reported) {
    let _ = print!(rt; "found {} ", found.size);
    say_measures(rt, found.measures);
}

// Fills a list with the gates, over and over; where there is none the list stays as it is.
pub fn repeat(gates: &[u8], list: &mut [u8]) {
    for (place, &gate) in list.iter_mut().zip(gates.iter().cycle()) {
        *place = gate;
    }
}

// Says a line without its line feed.
pub fn say_front(rt: &impl Print, line: &[u8]) {
    output::say(rt, line.strip_suffix(b"\n").unwrap_or(line));
}
