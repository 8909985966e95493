// Fills a table of sizes with the least gate count of every permutation of three wires, and prints how many permutations have each, beside
// the figures that Shende, Prasad, Markov and Hayes published (IEEE TCAD 2003), and then some cells; a last line where the two differ.
// Before that it offers two buffers of a wrong length. All bytes are 200 at first, so those that no call has written can be counted.
//
// - `counts`: cells counted, and the published figures;
// - `lines`: each line as text.
#![tactic(auto)]

mod counts;
mod lines;

use console::output::{say, say_count, say_number};

fn main(rt: HostRuntime) {
    let mut room = [200u8; 40321];
    run(&rt, &mut room);
}

// Lends the array as a slice. `main` lends it as an array: the checker would go through one of this size element by element.
fn run(rt: &impl Print, room: &mut [u8; 40321]) {
    fill_and_tell(rt, room);
}

fn fill_and_tell(rt: &impl Print, room: &mut [u8]) {
    fill_front(rt, room, 40319);
    fill_front(rt, room, 40321);
    tell_untouched(rt, room);
    fill_front(rt, room, 40320);
    tell_untouched(rt, room);
    tell_front(rt, room, 40320);
}

// Offers so many bytes to be filled.
fn fill_front(rt: &impl Print, room: &mut [u8], n: usize) {
    if n <= room.len() {
        fill(rt, &mut room[..n]);
    }
}

fn tell_front(rt: &impl Print, room: &[u8], n: usize) {
    if n <= room.len() {
        tell_sheet(rt, &room[..n]);
    }
}

fn fill(rt: &impl Print, cells: &mut [u8]) {
    say_number(rt, cells.len() as u64);
    match sizes::fill(cells) {
        Err(e) => say_count(rt, b" refused ", u64::from(u8::from(e))),
        Ok(()) => say(rt, b" filled"),
    }
    say(rt, b"\n");
}

fn tell_untouched(rt: &impl Print, room: &[u8]) {
    let mut out = [0u8; 64];
    let size = lines::put_number(&mut out, b"untouched ", counts::count(room, 200, 200));
    say(rt, &out[..size]);
}

// Says the 26 lines of the cells, and whether the figures differ from those published.
fn tell_sheet(rt: &impl Print, cells: &[u8]) {
    for i in 0..26 {
        tell_line(rt, cells, i);
    }
    if !counts::agrees(cells) {
        say(rt, b"other figures were published\n");
    }
}

fn tell_line(rt: &impl Print, cells: &[u8], i: usize) {
    let mut out = [0u8; 64];
    let size = lines::put_line(&mut out, cells, i);
    say(rt, &out[..size]);
}
