// A test program of the scheduler: runs the script of posts, turns and collects that tools/slots_vectors.py writes, and prints the answer
// to each call. A script is a list of records of 40 bytes; byte 0 says which call a record is.
#![tactic(auto)]

ghost use Rattle.std.specs.Prelude.{◌≡◌, length};

use console::{data_lines, output, slot_lines};
use scheduler::{Slots, start};
use std::rt::Files;

fn main(rt: HostRuntime) {
    run_script_file(&rt, b"script");
}

// Runs the script in a file of fewer than 65,536 bytes.
fn run_script_file(rt: &(impl Files + Print), name: &[u8]) {
    let mut script = io::large_buffer();
    let n = data_lines::read_file(rt, name, &mut script);
    run_script(rt, &script[..n]);
}

// Posts a job: byte 1 is the slot, byte 2 the length of the job, which stands from byte 4 on.
fn script_post(rt: &impl Print, slots: &mut Slots, rec: &[u8])
    requires { length rec.now ≡ 40 }
{
    let which = usize::from(logic::at(rec, 1));
    let end = 4 + usize::from(logic::at(rec, 2)).min(36);
    match slots.post(which, &rec[4..end]) {
        Ok(()) => output::say(rt, b"accepted\n"),
        Err(r) => slot_lines::say_refused(rt, u8::from(r)),
    }
}

// Takes as many turns as byte 2 says, and says which slot each served.
fn script_turns(rt: &impl Print, slots: &mut Slots, rec: &[u8]) {
    output::say(rt, b"turns");
    for _ in 0..logic::at(rec, 2) {
        match slots.turn() {
            Some(i) => output::say_count(rt, b" ", i as u64),
            None => output::say(rt, b" -"),
        }
    }
    output::say(rt, b"\n");
}

// Collects an answer: byte 1 is the slot, byte 2 the room for the answer. The ready times of what was found are on a line of their own.
fn script_collect(rt: &impl Print, slots: &mut Slots, rec: &[u8]) {
    let which = usize::from(logic::at(rec, 1));
    let room = usize::from(logic::at(rec, 2)).min(20);
    let mut answer = [0u8; 20];
    let told = slots.collect(which, &mut answer[..room]);
    slot_lines::say_answer(rt, told.map_err(u8::from), &answer[..room]);
    if let Ok(found) = told {
        slot_lines::say_ready(rt, found.measures);
        output::say(rt, b"\n");
    }
}

fn script_call(rt: &impl Print, slots: &mut Slots, rec: &[u8])
    requires { length rec.now ≡ 40 }
{
    match logic::at(rec, 0) {
        1 => script_post(rt, slots, rec),
        2 => script_turns(rt, slots, rec),
        _ => script_collect(rt, slots, rec),
    }
}

// Runs the calls of a script, from eight empty slots on, and says the answer to each.
fn run_script(rt: &impl Print, script: &[u8]) {
    let mut slots = start();
    for rec in script.chunks_exact(40) {
        script_call(rt, &mut slots, rec);
    }
}
