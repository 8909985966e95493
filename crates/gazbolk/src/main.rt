// The program for people: its first word is a command, and the words after it are names of files. With no words it says what it can do. The
// exit status is the same however it went, so the first word that it prints says it.
//
// - `arguments`: the words, the files that they name, and the usage.
#![tactic(auto)]

mod arguments;

ghost use Rattle.std.specs.Prelude.{◌<◌, ◌≤◌, length};
ghost use Rattle.printed.specs.batch_parts.Parts.{batch_parts};

use arguments::Command;
use commands::{closest, compare, rewrite, search_files};
use console::{input, output};
use printed::{batch_parts, files, rewriting, verdict};
use std::io::Read;
use std::rt::{Env, Files};

// Runs the commands that the words ask for, with `then` between them, one after another.
fn main(rt: HostRuntime) {
    let count = arguments::few(input::word_count(&rt));
    let mut at = run_command(&rt, 0, count);
    while at < count {
        at = run_command(&rt, at, count);
    }
}

// Runs the command after the word at `at`, the program's name or a `then`, and answers where it ends.
fn run_command(rt: &(impl Env + Files + Print), at: usize, count: usize) -> usize
    requires { (at ≤ count) × (count ≤ 1000000) }
    ensures { (result ≤ count) × (at < count → at < result) }
{
    let end = arguments::command_end(rt, at, count);
    let mut word = io::buffer();
    let n = input::word(rt, at + 1, &mut word);
    dispatch(rt, &word[..n], at, end - at);
    end
}

// Runs the command of this name, if it has as many words as it takes, and else prints the usage. The count includes the word at `at`; two
// commands may name a library last.
fn dispatch(rt: &(impl Env + Files + Print), word: &[u8], at: usize, words: usize)
    requires { at ≤ 1000000 }
{
    match arguments::asked(word, words) {
        Some(Command::Verify) => verify(rt, at, words == 5),
        Some(Command::Search) => search(rt, at, words == 4),
        Some(Command::Batch) => batch(rt, at),
        Some(Command::Compare) => compare(rt, at),
        Some(Command::Closest) => closest(rt, at),
        Some(Command::Rewrite) => rewrite(rt, at),
        None => arguments::usage(rt),
    }
}

// `gazbolk verify JOB CIRCUIT [LIBRARY]`
fn verify(rt: &(impl Env + Files + Print), at: usize, named: bool)
    requires { at ≤ 1000000 }
{
    let job = arguments::open(rt, at + 2);
    let circuit = arguments::open(rt, at + 3);
    let library = arguments::open_named(rt, named, at + 4);
    if let (Some(job), Some(circuit), Some(library)) = (job, circuit, library) {
        print_verdict(rt, job, circuit, library);
    }
}

// `gazbolk search JOB [LIBRARY]`
fn search(rt: &(impl Env + Files + Print), at: usize, named: bool)
    requires { at ≤ 1000000 }
{
    let job = arguments::open(rt, at + 2);
    let library = arguments::open_named(rt, named, at + 3);
    if let (Some(job), Some(library)) = (job, library) {
        print_finding(rt, job, library);
    }
}

// `gazbolk batch FILE`
fn batch(rt: &(impl Env + Files + Print), at: usize)
    requires { at ≤ 1000000 }
{
    if let Some(file) = arguments::open(rt, at + 2) {
        print_batch(rt, file);
    }
}

// `gazbolk compare OLD NEW`
fn compare(rt: &(impl Env + Files + Print), at: usize)
    requires { at ≤ 1000000 }
{
    let old = arguments::open(rt, at + 2);
    let new = arguments::open(rt, at + 3);
    if let (Some(old), Some(new)) = (old, new) {
        print_change(rt, old, new);
    }
}

// `gazbolk closest JOB`
fn closest(rt: &(impl Env + Files + Print), at: usize)
    requires { at ≤ 1000000 }
{
    if let Some(job) = arguments::open(rt, at + 2) {
        print_closest(rt, job);
    }
}

// `gazbolk rewrite FILE`
fn rewrite(rt: &(impl Env + Files + Print), at: usize)
    requires { at ≤ 1000000 }
{
    if let Some(file) = arguments::open(rt, at + 2) {
        print_rewriting(rt, file);
    }
}

// Verifies the circuit of one open file for the job of another, and prints the verdict. No more of a file is read than decides it.
fn print_verdict<F: Read + Drop>(
    rt: &impl Print,
    job_file: F,
    circuit_file: F,
    library_file: Option<F>,
) {
    let mut job = io::buffer();
    let job = arguments::read_part(job_file, files::job_room(), &mut job);
    let mut library = io::buffer();
    let library = read_library(library_file, &mut library);
    let mut circuit = io::large_buffer();
    let circuit = arguments::read_part(circuit_file, files::circuit_room(), &mut circuit);
    let mut out = [0u8; 128];
    let size = verdict::verify_text(job, library, circuit, &mut out);
    output::say(rt, &out[..size]);
}

// Reads the library, if a file of one is open.
fn read_library<F: Read + Drop>(file: Option<F>, buffer: &mut [u8; 4096]) -> Option<&[u8]> {
    file.map(|file| arguments::read_part(file, files::library_room(), buffer))
}

// Searches for the circuit of the job in an open file, and prints what is found.
fn print_finding<F: Read + Drop>(rt: &impl Print, job_file: F, library_file: Option<F>) {
    let mut job = io::buffer();
    let job = arguments::read_part(job_file, files::job_room(), &mut job);
    let mut library = io::buffer();
    let library = read_library(library_file, &mut library);
    let mut out = [0u8; 128];
    let size = search_files::search_text(job, library, &mut out);
    output::say(rt, &out[..size]);
}

// Searches for the circuits of the batch in an open file, and prints what is found. Each part is printed before the next job is searched,
// so that a long batch shows how far it is.
fn print_batch(rt: &impl Print, file: impl Read + Drop) {
    let mut jobs = io::buffer();
    let jobs = arguments::read_part(file, batch_parts::batch_room(), &mut jobs);
    for i in 0..batch_parts::batch_parts(jobs) {
        print_part(rt, jobs, i);
    }
}

fn print_part(rt: &impl Print, jobs: &[u8], i: usize)
    requires { i < length (batch_parts jobs.now) }
{
    let mut out = [0u8; 128];
    let size = search_files::batch_part(jobs, i, &mut out);
    output::say(rt, &out[..size]);
}

// Compares the jobs in two open files, and prints the difference and both circuits.
fn print_change<F: Read + Drop>(rt: &impl Print, old_file: F, new_file: F) {
    let mut old = io::buffer();
    let old = arguments::read_part(old_file, files::job_room(), &mut old);
    let mut new = io::buffer();
    let new = arguments::read_part(new_file, files::job_room(), &mut new);
    let mut out = [0u8; 256];
    let size = compare::compare_text(old, new, &mut out);
    output::say(rt, &out[..size]);
}

// Searches for the closest circuit of the job in an open file, and prints it.
fn print_closest(rt: &impl Print, job_file: impl Read + Drop) {
    let mut job = io::buffer();
    let job = arguments::read_part(job_file, files::job_room(), &mut job);
    let mut out = [0u8; 128];
    let size = closest::closest_text(job, &mut out);
    output::say(rt, &out[..size]);
}

// Rewrites the list of gates in an open file, and prints both lists' sizes and costs and the new list.
fn print_rewriting(rt: &impl Print, mut file: impl Read + Drop) {
    let mut head = [0u8; 5];
    let n = input::read_full(&mut file, &mut head);
    let mut list = io::large_buffer();
    let m = input::read_full(&mut file, &mut list[..rewriting::list_room()]);
    let mut out = [0u8; 8300];
    let size = rewrite::rewrite_text(&head[..n], &mut list[..m], &mut out);
    output::say(rt, &out[..size]);
}
