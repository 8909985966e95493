// A test program of RevLib text: makes the calls that stand in data files, one to a line, and prints a line for each with its answer. A
// call reads a text, reads it with damages, or writes the text of a record.
#![tactic(auto)]

use console::{data_lines, output};
use record::refusal::Refusal;
use revlib_writer::WriteError;
use std::rt::Files;

const FILES: [&[u8]; 11] = [
    b"reading",
    b"departures",
    b"headings",
    b"lines",
    b"cut",
    b"long",
    b"every",
    b"damaged_1",
    b"damaged_2",
    b"damaged_3",
    b"writing",
];

fn main(rt: HostRuntime) {
    for name in FILES {
        run_file(&rt, name);
    }
}

// Runs the lines of a file of fewer than 65,536 bytes.
fn run_file(rt: &(impl Files + Print), name: &[u8]) {
    let mut text = io::large_buffer();
    let n = data_lines::read_file(rt, name, &mut text);
    run_lines(rt, &text[..n]);
}

fn run_lines(rt: &impl Print, text: &[u8]) {
    for (i, line) in text.split_inclusive(|&b| b == b'\n').enumerate() {
        run_line(rt, line.strip_suffix(b"\n").unwrap_or(line), i + 1);
    }
}

fn run_line(rt: &impl Print, line: &[u8], number: usize) {
    match read_call(line) {
        Some(call) => run_call(rt, call),
        None => data_lines::say_other(rt, line, number),
    }
    output::say(rt, b"\n");
}

// The call of a line: its name, and two words of bytes.
#[derive(Clone, Copy)]
struct Call<'a> {
    name: &'a [u8],
    first: &'a [u8],
    second: &'a [u8],
}

// The call of a line, if it is one.
fn read_call(line: &[u8]) -> Option<Call<'_>> {
    let mut words = line.splitn(3, |&b| b == b' ');
    let call = Call {
        name: words.next()?,
        first: words.next()?,
        second: words.next()?,
    };
    let fits = match call.name {
        b"damage" => is_word(call.second),
        b"read" | b"write" => data_lines::is_byte(call.second),
        _ => false,
    };
    (fits && is_word(call.first)).then_some(call)
}

// Whether a word is bytes, at most as many digits as a file can have.
fn is_word(word: &[u8]) -> bool {
    data_lines::is_word(word, 65536)
}

// Makes a call: on a text and the damages, or on a text or a record and the length of the answer buffer.
fn run_call(rt: &impl Print, call: Call<'_>) {
    let mut first = io::large_buffer();
    let mut second = io::buffer();
    let n = data_lines::decode(call.first, &mut first);
    let m = data_lines::decode(call.second, &mut second);
    let (first, second) = (&mut first[..n], &second[..m]);
    match call.name {
        b"read" => say_read(rt, first, logic::at(second, 0)),
        b"damage" => say_damaged(rt, first, second),
        b"write" => say_written(rt, first, logic::at(second, 0)),
        _ => output::say(rt, b"unknown"),
    }
}

// Reads a text with a numbered buffer of `room` bytes, and says the answer and the whole buffer.
fn say_read(rt: &impl Print, text: &[u8], room: u8) {
    let mut buffer = data_lines::numbered();
    read_whole(rt, text, &mut buffer[..usize::from(room)]);
}

fn read_whole(rt: &impl Print, text: &[u8], answer: &mut [u8]) {
    say_parsed(rt, revlib_reader::read(text, answer));
    output::say(rt, b" ");
    data_lines::say_bytes(rt, answer);
}

fn say_parsed(rt: &impl Print, answer: Result<usize, Refusal>) {
    match answer {
        Ok(size) => output::say_count(rt, b"record ", size as u64),
        Err(r) => output::say_count(rt, b"refused ", u64::from(u8::from(r))),
    }
}

// Writes the text of a record into a numbered buffer of `room` bytes, and says the answer and the whole buffer.
fn say_written(rt: &impl Print, circuit: &[u8], room: u8) {
    let mut buffer = data_lines::numbered();
    write_whole(rt, circuit, &mut buffer[..usize::from(room)]);
}

fn write_whole(rt: &impl Print, circuit: &[u8], out: &mut [u8]) {
    say_rendered(rt, revlib_writer::write_real(circuit, out));
    output::say(rt, b" ");
    data_lines::say_bytes(rt, out);
}

fn say_rendered(rt: &impl Print, answer: Result<usize, WriteError>) {
    match answer {
        Ok(size) => output::say_count(rt, b"text ", size as u64),
        Err(WriteError::Short(needed)) => output::say_count(rt, b"short ", needed as u64),
        Err(WriteError::Refused(r)) => output::say_count(rt, b"refused ", u64::from(u8::from(r))),
    }
}

// Reads a text with one damage at a time, and says the answer to each. A damage is three bytes: its place, high byte first, and the byte
// that stands there instead.
fn say_damaged(rt: &impl Print, text: &mut [u8], list: &[u8]) {
    output::say(rt, b"answers");
    for damage in list.chunks_exact(3) {
        say_changed(rt, text, damage[0], damage[1], damage[2]);
    }
}

// Says what reading a text with this byte at this place answers, and mends the text again.
fn say_changed(rt: &impl Print, text: &mut [u8], high: u8, low: u8, b: u8) {
    let place = 256 * usize::from(high) + usize::from(low);
    if place < text.len() {
        let right = text[place];
        text[place] = b;
        say_short(rt, text);
        text[place] = right;
    } else {
        output::say(rt, b" beyond");
    }
}

// Says, after a space, what reading a text answers: the number of a refusal, or the record.
fn say_short(rt: &impl Print, text: &[u8]) {
    let mut answer = [0u8; 15];
    let read = revlib_reader::read(text, &mut answer);
    output::say(rt, b" ");
    match read {
        Ok(size) => data_lines::say_bytes(rt, &answer[..size]),
        Err(r) => output::say_number(rt, u64::from(u8::from(r))),
    }
}
