// A test program: makes the calls that stand in data files, one to a line, and prints a line for each with its answer. At the end it runs
// `main`'s own code on three files in place of standard input, and beside it that of `gazbolk search`.
//
// - `call_lines`: which lines are calls, and how the answers of calls are said.
#![tactic(auto)]

mod call_lines;

use call_lines::{Call, say_answer};
use commands::{program, search_files};
use console::{data_lines, input, output};
use library::calls;
use outcomes::Reported;
use printed::rewriting;
use record::refusal::Refusal;
use sensitivity::difference;
use std::rt::Files;
use verify::runs;

fn main(rt: HostRuntime) {
    run_base(&rt);
    run_later(&rt);
    run_program(&rt);
}

// The calls of document 01, and the same calls on the longer jobs and the marked circuits of document 02.
fn run_base(rt: &(impl Files + Print)) {
    run_file(rt, b"jobs");
    run_file(rt, b"circuits");
    run_file(rt, b"counts");
    run_file(rt, b"running");
    run_file(rt, b"measuring");
    run_file(rt, b"verifying");
    run_file(rt, b"parity");
    run_file(rt, b"longer");
    run_file(rt, b"marked");
    run_file(rt, b"search");
    run_file(rt, b"lines");
}

// The calls that document 02 adds.
fn run_later(rt: &(impl Files + Print)) {
    run_file(rt, b"library");
    run_file(rt, b"batches");
    run_file(rt, b"prices");
    run_file(rt, b"closest");
    run_file(rt, b"listings");
}

// What `main` and `gazbolk search` print for three inputs.
fn run_program(rt: &(impl Files + Print)) {
    output::say(
        rt,
        b"# main, gazbolk search: no input at all; four data wires and an ancilla; a sound job with one byte more\n",
    );
    print_both(rt, b"empty");
    print_both(rt, b"four");
    print_both(rt, b"long");
}

fn print_both(rt: &(impl Files + Print), name: &[u8]) {
    answer_file(rt, name);
    explain_file(rt, name);
}

// What `main` prints when its standard input is this file.
fn answer_file(rt: &(impl Files + Print), name: &[u8]) {
    let Some(mut file) = input::open(rt, name) else {
        output::say_unreadable(rt, name);
        return;
    };
    program::answer(rt, &mut file);
}

// What `gazbolk search` prints for this file.
fn explain_file(rt: &(impl Files + Print), name: &[u8]) {
    let mut job = io::buffer();
    let n = data_lines::read_file(rt, name, &mut job);
    explain(rt, &job[..n]);
}

fn explain(rt: &impl Print, job: &[u8]) {
    let mut out = [0u8; 128];
    let size = search_files::search_text(job, None, &mut out);
    output::say(rt, &out[..size]);
}

// Runs the lines of a file of fewer than 65,536 bytes.
fn run_file(rt: &(impl Files + Print), name: &[u8]) {
    let mut text = io::large_buffer();
    let n = data_lines::read_file(rt, name, &mut text);
    run_lines(rt, &text[..n]);
}

fn run_lines(rt: &impl Print, text: &[u8]) {
    for (i, line) in text.split_inclusive(|&b| b == b'\n').enumerate() {
        run_line(rt, line.strip_suffix(b"\n").unwrap_or(line), i + 1);
    }
}

fn run_line(rt: &impl Print, line: &[u8], number: usize) {
    match call_lines::read(line) {
        Some(call) => run_call(rt, call),
        None => data_lines::say_other(rt, line, number),
    }
    output::say(rt, b"\n");
}

// Makes the call of a line: a name, and one to three words of bytes.
fn run_call(rt: &impl Print, call: Call) {
    let mut first = io::buffer();
    let mut second = io::buffer();
    let mut third = io::buffer();
    let n = data_lines::decode(call.first, &mut first);
    let m = data_lines::decode(call.second, &mut second);
    let k = data_lines::decode(call.third, &mut third);
    dispatch(rt, call.name, &first[..n], &second[..m], &third[..k]);
}

fn dispatch(rt: &impl Print, name: &[u8], first: &[u8], second: &[u8], third: &[u8]) {
    match name {
        b"job" => call_lines::say_checked(rt, record::check_job(first)),
        b"circuit" => call_lines::say_checked(rt, record::check_circuit(first)),
        b"every" => call_lines::say_every(rt, first),
        b"forwards" => call_lines::say_ran(rt, runs::run_forwards(first, logic::at(second, 0))),
        b"backwards" => call_lines::say_ran(rt, runs::run_backwards(first, logic::at(second, 0))),
        b"measure" => call_lines::say_measured(rt, verify::measure(first, second)),
        b"verify" => call_lines::say_measured(rt, verify::verify(first, second)),
        b"parity" => call_lines::say_parity(rt, parity::parity(first)),
        _ => dispatch_search(rt, name, first, second, third),
    }
}

// The calls that search, and those with a library or two jobs.
fn dispatch_search(rt: &impl Print, name: &[u8], first: &[u8], second: &[u8], third: &[u8]) {
    match name {
        b"search" => say_search(rt, first, None, logic::at(second, 0)),
        b"line" => say_line(rt, first),
        b"among" => say_search(rt, first, Some(second), logic::at(third, 0)),
        b"with" => call_lines::say_measured(rt, calls::verify_with(first, second, third)),
        b"together" => say_batch(rt, first, second, logic::at(third, 0)),
        b"difference" => say_answer(rt, sensitivity::price_change(first, second), |change| {
            call_lines::say_difference(rt, change)
        }),
        b"gap" => say_gap(
            rt,
            call_lines::number_in(first),
            call_lines::number_in(second),
        ),
        b"nearest" => say_closest(rt, first, logic::at(second, 0)),
        b"rewrite" => say_rewrite(rt, first, second, third),
        _ => output::say(rt, b"unknown"),
    }
}

fn say_gap(rt: &impl Print, old: u16, new: u16) {
    call_lines::say_difference(rt, difference::cost_difference(old, new));
}

// Searches with a numbered buffer of `room` bytes, and says the answer and the whole buffer.
fn say_search(rt: &impl Print, job: &[u8], library: Option<&[u8]>, room: u8) {
    let mut buffer = data_lines::numbered();
    let answer = &mut buffer[..usize::from(room)];
    say_answer(rt, search_one(job, library, answer), |found| {
        call_lines::say_found(rt, found)
    });
    output::say(rt, b" ");
    data_lines::say_bytes(rt, answer);
}

// Searches among the gates of a library, or among those that the job allows.
fn search_one(job: &[u8], library: Option<&[u8]>, answer: &mut [u8]) -> Result<Reported, Refusal> {
    match library {
        Some(library) => library::search_with(job, library, answer),
        None => search::search(job, answer),
    }
}

// Searches for the closest circuit with a numbered buffer of `room` bytes, and says the answer and the whole buffer.
fn say_closest(rt: &impl Print, job: &[u8], room: u8) {
    let mut buffer = data_lines::numbered();
    let answer = &mut buffer[..usize::from(room)];
    say_answer(rt, approximate::closest(job, answer), |nearest| {
        call_lines::say_found(rt, nearest.report);
        output::say_count(rt, b" misses ", nearest.misses as u64);
    });
    output::say(rt, b" ");
    data_lines::say_bytes(rt, answer);
}

// Searches for the jobs of a batch with numbered buffers, and says the answer and both buffers whole. `answers` and `statuses` are the
// buffers' lengths.
fn say_batch(rt: &impl Print, jobs: &[u8], answers: &[u8], statuses: u8) {
    let mut cells = data_lines::numbered();
    let mut codes = data_lines::numbered();
    let codes = &mut codes[..usize::from(statuses)];
    if let Some(cells) = cells.get_mut(..usize::from(call_lines::number_in(answers))) {
        say_answer(rt, batch::search_all(jobs, cells, codes), |count| {
            output::say_count(rt, b"jobs ", count as u64)
        });
        output::say(rt, b" ");
        data_lines::say_bytes(rt, cells);
        output::say(rt, b" ");
        data_lines::say_bytes(rt, codes);
    }
}

// Rewrites a list of the gates, over and over until it is as long as `size` says, and says the answer and the whole list. The setting is
// the wires, the window and three prices.
fn say_rewrite(rt: &impl Print, setting: &[u8], gates: &[u8], size: &[u8]) {
    let mut list = io::large_buffer();
    let list = &mut list[..usize::from(call_lines::number_in(size))];
    call_lines::repeat(gates, list);
    let prices = rewriting::prices_in(setting);
    let wires = logic::at(setting, 0);
    let window = logic::at(setting, 1);
    say_answer(
        rt,
        peephole::rewrite(wires, window, prices, list),
        |count| { output::say_count(rt, b"gates ", count as u64) },
    );
    output::say(rt, b" ");
    data_lines::say_bytes(rt, list);
}

// Says the line that `main` prints for a job, without its line feed.
fn say_line(rt: &impl Print, job: &[u8]) {
    let mut out = [0u8; 64];
    let size = program::line(job, &mut out);
    call_lines::say_front(rt, &out[..size]);
}
