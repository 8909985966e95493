// One slot of the scheduler: the job that it works on, the candidate that it tries next, and the best circuit so far.
ghost use Rattle.std.specs.Prelude.{◌≡◌, true, ◌≤◌, length, get_or, take, IfOk, IfSome};
ghost use Rattle.gate.specs.Gates.{gates_for};
ghost use Rattle.table.specs.layouts.Layouts.{layouts_for};
ghost use Rattle.record.specs.Answers.{reply};
ghost use Rattle.record.specs.job_fields.Jobs.{most_controls, data_wires, wires, free_layout};
ghost use Rattle.record.specs.JobRules.{job_code};
ghost use Rattle.problem.specs.order.Choices.{attempt};
ghost use Rattle.problem.specs.order.View.{view, viewed, held_choice};
ghost use Rattle.problem.specs.Problems.{choice_of, good};
ghost use Rattle.outcomes.specs.Outcomes.{problem_of, reported, written};
ghost use Rattle.scheduler.specs.candidates.Inner.{current_at, after_at, remaining};
ghost use Rattle.scheduler.specs.candidates.Left.{chosen, digits_at};
ghost use Rattle.scheduler.specs.slot.Slots.{empty, is_empty, is_working, is_finished, begun, tried, result_of};
ghost use Rattle.scheduler.specs.slot.View.{stage_said, held_len, HeldShort, sound_of, stage_of, view_slot};
ghost use Rattle.scheduler.specs.slot.Inner.{does_for};

use crate::candidates;
use crate::candidates::Place;
use circuit::measures::Measures;
use gate::gate_tables;
use outcomes::Reported;
use problem::best;
use problem::order::{Best, Held};
use record::job_fields;
use record::refusal::Refusal;
use table::{agreement, cleaning, layouts};

// How far a slot is: without a job, with candidates left to try, or with all of them tried.
#[derive(Clone, Copy, Debug, PartialEq, Eq)]
pub enum Stage {
    Empty,
    Working,
    Finished,
}

// The stage that a status stands for: 1 is working, 2 finished, and any other number empty.
fn stage_said(status: u8) -> Stage
    ensures { result ≡ stage_said status }
{
    match status {
        1 => Stage::Working,
        2 => Stage::Finished,
        _ => Stage::Empty,
    }
}

// How many gates the circuit that is kept has, if there is one.
#[tactic(auto, unfolding(crate::specs::slot::View::held_len))]
fn held_len(held: Option<Held>) -> usize
    ensures { result ≡ held_len held }
{
    match held {
        Some(held) => held.len,
        None => 0,
    }
}

// What a slot keeps, as the incumbent of a search.
#[tactic(auto, unfolding(crate::specs::slot::View::held_len, problem::specs::order::View::view, problem::specs::order::View::viewed, problem::specs::order::View::choice, problem::specs::order::View::held_choice))]
fn incumbent(held: Option<Held>) -> Option<Best>
    requires { held_len held ≤ 12 }
    ensures { view result ≡ viewed held_choice held }
{
    let held = held?;
    let path = held.path;
    Some(Best {
        cost: held.cost,
        depth: held.depth,
        layout: held.layout,
        len: held.len,
        path,
    })
}

// An incumbent, as a slot keeps it.
#[tactic(auto, unfolding(crate::specs::slot::View::held_len, problem::specs::order::View::view, problem::specs::order::View::viewed, problem::specs::order::View::choice, problem::specs::order::View::held_choice))]
fn kept(best: Option<Best>) -> Option<Held>
    ensures same { viewed held_choice result ≡ view best }
    ensures short { held_len result ≤ 12 }
{
    let best = best?;
    let path = best.path;
    Some(Held {
        cost: best.cost,
        depth: best.depth,
        layout: best.layout,
        len: best.len,
        path,
    })
}

// The state of a slot. `status` is 1 for a working slot, 2 for a finished one, and anything else for an empty one. `job` begins with the
// job's `size` bytes, `at` is the place of the candidate to try next, and `best` is the incumbent, the best circuit so far. The fields are
// public, so a caller can write any number into `status` and any length into `best`.
#[derive(Clone, Copy)]
pub struct SlotState {
    pub status: u8,
    pub size: usize,
    pub job: [u8; 30],
    pub at: Place,
    pub best: Option<Held>,
}

impl SlotState {
    // An empty slot.
    pub fn vacant() -> SlotState
        ensures slot { view_slot result ≡ empty }
        ensures held_short { HeldShort result }
    {
        let at = candidates::first();
        SlotState {
            status: 0,
            size: 0,
            job: [0; 30],
            at,
            best: None, // no job, so nothing is kept
        }
    }

    // A working slot whose job was just posted: no candidate is tried yet.
    pub fn fresh(job: &[u8]) -> SlotState
        requires { job_code job.now ≡ 0 }
        ensures slot { view_slot result ≡ begun job.now }
        ensures held_short { HeldShort result }
    {
        let size = job.len();
        let mut bytes = [0; 30];
        bytes[..size].copy_from_slice(job);
        let at = candidates::first();
        SlotState {
            status: 1,
            size,
            job: bytes,
            at,
            best: None, // no candidate was tried
        }
    }

    // Whether the fields fit one another: the job is well-formed, and both lists have at most twelve gates. A caller can make any state, so
    // no ghost field says this.
    #[tactic(auto, unfolding(crate::specs::slot::View::sound_of))]
    fn is_sound(&self) -> bool
        ensures { result ≡ sound_of self.now }
    {
        self.size <= 30
            && record::check_job(&self.job[..self.size]).is_ok()
            && self.at.len <= 12
            && held_len(self.best) <= 12
    }

    // The stage that the slot stands for: it is empty where the fields do not fit one another.
    #[tactic(auto, unfolding(crate::specs::slot::View::stage_of))]
    fn shown(&self) -> Stage
        ensures { result ≡ stage_of self.now }
    {
        if self.is_sound() {
            stage_said(self.status)
        } else {
            Stage::Empty
        }
    }

    pub fn is_empty(&self) -> bool
        ensures { result ≡ is_empty (view_slot self.now) }
    {
        matches!(self.shown(), Stage::Empty)
    }

    pub fn is_working(&self) -> bool
        ensures { result ≡ is_working (view_slot self.now) }
    {
        matches!(self.shown(), Stage::Working)
    }

    pub fn is_finished(&self) -> bool
        ensures { result ≡ is_finished (view_slot self.now) }
    {
        matches!(self.shown(), Stage::Finished)
    }

    // One turn of a slot: it tries one candidate, and is finished where that was the last. A slot that is not working stays as it is.
    pub fn serve(&mut self)
        ensures slot { view_slot self.new ≡ tried (view_slot self.old) }
        ensures held_short { HeldShort self.old → HeldShort self.new }
    {
        if !self.is_working() {
            return;
        }
        let job = &self.job[..self.size];
        let held = kept(attempt(job, self.at, incumbent(self.best)));
        let next = place_after(job, self.at);
        self.best = held;
        let Some(place) = next else {
            self.status = 2;
            return;
        };
        self.at = place;
    }

    // Writes the answer of a finished slot to the front of `answer`, as `search` does.
    pub fn tell(&self, answer: &mut [u8]) -> Result<Reported, Refusal>
        requires state_value { is_finished (view_slot self.now) ≡ true }
        requires in_bounds { 15 ≤ length answer.old }
        ensures result_value { reply result ≡ reported (result_of (view_slot self.now)) }
        ensures result_bound { IfOk result (λ r. r.size ≤ 15) }
        ensures answer_after { answer.new ≡ written (result_of (view_slot self.now)) answer.old }
    {
        let job = &self.job[..self.size];
        let best = outcomes::found(incumbent(self.best))?;
        let measures = outcomes::measures_of(job, best.gates());
        outcomes::tell(job, Some(best), measures, answer)
    }
}

// The gates of the candidate at a place.
fn path_at(job: &[u8], at: Place) -> [u8; 12]
    requires job_value { job_code job.now ≡ 0 }
    requires len_bound { at.len ≤ 12 }
    ensures { take at.len result ≡ chosen (gates_for (most_controls job.now) (wires job.now)) (digits_at at) }
{
    let most = job_fields::most_controls(job);
    let wires = job_fields::wires(job);
    let count = gate_tables::gate_count(most, wires);
    let table = gate_tables::gate_table(most, wires);
    candidates::gates_at(at, &table[..count])
}

// The layout with index `i` of those that the job allows.
fn layout_for(job: &[u8], i: u8) -> u8
    requires { job_code job.now ≡ 0 }
    ensures { result ≡ get_or (layouts_for (data_wires job.now) (free_layout job.now)) i 0 }
{
    layouts::layout_at(
        job_fields::data_wires(job),
        job_fields::free_layout(job),
        usize::from(i),
    )
}

// The place of the next candidate, if there is one.
fn place_after(job: &[u8], at: Place) -> Option<Place>
    requires job_value { job_code job.now ≡ 0 }
    requires len_bound { at.len ≤ 12 }
    ensures result_value { remaining (problem_of job.now) result ≡ after_at (problem_of job.now) at }
    ensures len_bound_2 { IfSome result (λ place. place.len ≤ 12) }
{
    let gates = gate_tables::gate_count(job_fields::most_controls(job), job_fields::wires(job));
    let layouts = layouts::layout_count(job_fields::data_wires(job), job_fields::free_layout(job));
    candidates::advance(at, gates, layouts, job_fields::gate_limit(job))
}

// Whether a list with this layout and these measures realizes the job's table within its limits on cost and depth.
#[tactic(auto, unfolding(crate::specs::slot::Inner::does_for, table::specs::Rows::realizes))]
fn does_for(job: &[u8], list: &[u8], layout: u8, m: Measures) -> bool
    ensures { result ≡ does_for job.now list.now layout m }
{
    agreement::agrees(layout, list, job_fields::table(job))
        && cleaning::clean(job_fields::data_wires(job), list)
        && usize::from(m.cost) <= job_fields::cost_limit(job)
        && usize::from(m.depth) <= job_fields::depth_limit(job)
}

// The incumbent after a list with a layout was tried.
fn consider(job: &[u8], path: [u8; 12], len: usize, layout: u8, best: Option<Best>) -> Option<Best>
    requires { len ≤ 12 }
    ensures { view result ≡ attempt (good (problem_of job.now)) (view best) (choice_of (problem_of job.now) (take len path) layout) }
{
    let m = outcomes::measures_of(job, &path[..len]);
    if !does_for(job, &path[..len], layout, m) {
        return best;
    }
    let mine = Best {
        cost: m.cost,
        depth: m.depth,
        layout,
        len,
        path,
    };
    best::offer(best, mine)
}

// The incumbent after the candidate at a place was tried.
fn attempt(job: &[u8], at: Place, best: Option<Best>) -> Option<Best>
    requires job_value { job_code job.now ≡ 0 }
    requires len_bound { at.len ≤ 12 }
    ensures { view result ≡ attempt (good (problem_of job.now)) (view best) (current_at (problem_of job.now) at) }
{
    let path = path_at(job, at);
    let layout = layout_for(job, at.layout);
    consider(job, path, at.len, layout, best)
}
