// `slots FILE`: works through the jobs of a file in eight slots that take turns, and prints the line of each job as soon as its answer is
// collected, with the number of turns taken by then.
#![tactic(auto)]

ghost use Rattle.std.specs.Prelude.{◌≡◌, List, ℕ, ◌≤◌, ◌<◌, ◌+◌, length, get_or, IfSome};
ghost use Rattle.text.specs.pieces.Text.{in_front};
ghost use Rattle.printed.specs.job_line.Lines.{line_of};
ghost use Rattle.batch.specs.cutting.Records.{count_of};
ghost use Rattle.scheduler.specs.states.States.{after_collect};
ghost use Rattle.scheduler.specs.states.Calls.{view_state};
ghost use Rattle.slots.specs.Work.{job_of, Kept};

use batch::cutting;
use console::{input, output, slot_lines};
use record::refusal::Refusal;
use scheduler::{Slots, start};
use std::rt::Files;

fn main(rt: HostRuntime) {
    if input::word_count(&rt) != 2 {
        output::say(&rt, b"usage: slots FILE\n");
        return;
    }
    let mut name = io::buffer();
    let n = input::word(&rt, 1, &mut name);
    run_file(&rt, &name[..n]);
}

// Works through the jobs of a file. A buffer is longer than any batch, so a file that does not fit is refused all the same.
fn run_file(rt: &(impl Files + Print), name: &[u8]) {
    let Some(mut file) = input::open(rt, name) else {
        output::say_unreadable(rt, name);
        return;
    };
    let mut jobs = io::buffer();
    let n = input::read_full(&mut file, &mut jobs);
    run_jobs(rt, &jobs[..n]);
}

// Says which job was answered, counted from 1, and after how many turns.
fn say_heading(rt: &impl Print, job: usize, turns: u64) {
    output::say_count(rt, b"job ", job as u64);
    output::say_count(rt, b" turn ", turns);
    output::say(rt, b": ");
}

// Collects a slot and, if it is finished, writes the line of its job to the start of `out` and answers how long it is. The slot is then
// free.
fn finished_line(slots: &mut Slots, which: usize, out: &mut [u8]) -> Option<usize>
    requires which_bound { which < 8 }
    requires in_bounds { 64 ≤ length out.old }
    ensures size_bound { IfSome result (λ size. size ≤ 64) }
    ensures slots_value { view_state slots.new ≡ after_collect (view_state slots.old) which 15 }
    ensures by_index { (jobs owners : List ℕ) → Kept jobs owners (view_state slots.old)
        → IfSome result (λ size. (size ≡ length (line_of (job_of jobs owners which)))
        × (out.new ≡ in_front (line_of (job_of jobs owners which)) out.old)) }
{
    let mut answer = [0u8; 15];
    match slots.collect(which, &mut answer) {
        Ok(found) => Some(text::found_line(found.measures, &answer[..found.size], out)),
        Err(r) => match r {
            Refusal::SlotUnfinished => None,
            _ => Some(text::refused_line(u8::from(r), out)),
        },
    }
}

// How far the work has come: the slots, the next job of the file, the first slot to try for it (8 for none), which job each slot has, and
// the turns taken.
#[derive(Clone, Copy)]
pub struct Work {
    pub slots: Slots,
    pub next: usize,
    pub free: usize,
    pub owners: [u8; 8],
    pub turns: u64,
}

impl Work {
    // What follows a refused post: where the slot is taken, the next slot is tried; any other refusal is the job's answer.
    fn pass_over(&mut self, rt: &impl Print, r: Refusal)
        requires { (self.old.next < 64) × (self.old.free < 8) }
        ensures { (self.new.slots ≡ self.old.slots) × (self.new.owners ≡ self.old.owners) }
    {
        if r == Refusal::SlotTaken {
            self.free += 1;
            return;
        }
        say_heading(rt, self.next + 1, self.turns);
        slot_lines::say_refused(rt, u8::from(r));
        self.next += 1;
    }

    // Posts the next job to the slot that is to be tried.
    fn post_next(&mut self, rt: &impl Print, jobs: &[u8])
        requires { (self.old.next < count_of jobs.now) × ((self.old.next < 64) × (self.old.free < 8)) }
        ensures { Kept jobs.now self.old.owners (view_state self.old.slots) → Kept jobs.now self.new.owners (view_state self.new.slots) }
    {
        let (which, number) = (self.free, self.next);
        let place = cutting::record_at(jobs, number);
        match self.slots.post(which, &jobs[place.start..place.end]) {
            Err(r) => self.pass_over(rt, r),
            Ok(()) => {
                self.owners[which] = number as u8;
                self.next = number + 1;
                self.free = which + 1;
            }
        }
    }

    // The job of a slot, counted from 1.
    fn owner_at(&self, which: usize) -> usize
        requires { which < 8 }
        ensures { result ≡ get_or self.now.owners which 0 + 1 }
    {
        usize::from(self.owners[which]) + 1
    }

    // Collects the answer of the slot that was served, if it is finished, and says it.
    fn collect_served(&mut self, rt: &impl Print, which: usize)
        requires { which < 8 }
        ensures { (jobs : List ℕ) → Kept jobs self.old.owners (view_state self.old.slots)
            → Kept jobs self.new.owners (view_state self.new.slots) }
    {
        let mut out = [0u8; 64];
        let Some(size) = finished_line(&mut self.slots, which, &mut out) else {
            return;
        };
        say_heading(rt, self.owner_at(which), self.turns);
        output::say(rt, &out[..size]);
        self.free = which;
    }

    // Takes a turn, and answers whether a slot was working. No run takes 2^64 turns, so the count never stops.
    fn take_turn(&mut self, rt: &impl Print) -> bool
        ensures { (jobs : List ℕ) → Kept jobs self.old.owners (view_state self.old.slots)
            → Kept jobs self.new.owners (view_state self.new.slots) }
    {
        let Some(i) = self.slots.turn() else {
            return false;
        };
        self.turns = self.turns.saturating_add(1);
        self.collect_served(rt, i);
        true
    }

    // Posts the next job, if there is one and a slot to try for it, and else takes a turn; answers whether there is more to do.
    fn step(&mut self, rt: &impl Print, jobs: &[u8], count: usize) -> bool
        requires { (count ≡ count_of jobs.now) × (count ≤ 64) }
        ensures { Kept jobs.now self.old.owners (view_state self.old.slots) → Kept jobs.now self.new.owners (view_state self.new.slots) }
    {
        if 8 <= self.free {
            return self.take_turn(rt);
        }
        if count <= self.next {
            return self.take_turn(rt);
        }
        self.post_next(rt, jobs);
        true
    }
}

// Works through jobs that stand back to back, and says the line of each as it is collected.
fn run_jobs(rt: &impl Print, jobs: &[u8]) {
    let cut = cutting::cut_off(jobs);
    if cut.end != jobs.len() {
        slot_lines::say_refused(rt, u8::from(Refusal::BatchForm));
        return;
    }
    let slots = start();
    let mut work = Work {
        slots,
        next: 0,
        free: 0,
        owners: [0; 8],
        turns: 0,
    };
    for _step in 0..u64::MAX {
        if !work.step(rt, jobs, cut.count) {
            return;
        }
    }
}
