// Eight slots that share one machine (document 02, change request 13, calls them desks). `start` gives eight empty slots; `post` gives a
// job to an empty slot; each `turn` serves the next working slot, which tries one candidate circuit; `collect` writes the answer of a
// finished slot and empties it. Each call changes the slots and answers: `post` whether the job is
// accepted, `turn` which slot it served, `collect` what `search` would return. Proved of them (proofs/fairness/Promises.antt): a job
// with N candidates is finished after N turns of its own and at most 8 N turns in all, with the answer that `search` gives to the job
// alone. Definitions to read, in this order: specs/slot/Slots.antt (one slot), specs/states/States.antt (eight slots, and what each call
// does), specs/candidates/Candidates.antt (the order of trying), specs/fairness/Histories.antt (sequences of calls). The others, View,
// Calls, Left and Inner, tie the code's structs to these.
#![tactic(auto)]

pub mod candidates; // the candidates of a problem, one after the other
pub mod fairness; // theorems: how many turns a job takes, and its answer (no code)
pub mod slot; // one slot: its job, the candidate to try next, and the best circuit so far
pub mod states; // all eight slots: the slot served next, and the rules of `post` and `collect`

ghost use Rattle.std.specs.Prelude.{◌≡◌, ℕ, ◌≤◌, length, IfOk};
ghost use Rattle.std.proofs.Math.Option.{none};
ghost use Rattle.logic.specs.Answers.{refused};
ghost use Rattle.record.specs.Answers.{reply};
ghost use Rattle.outcomes.specs.Outcomes.{reported, written};
ghost use Rattle.scheduler.specs.states.States.{post_of, after_post, served_by, after_turn, collect_of, after_collect};
ghost use Rattle.scheduler.specs.states.Calls.{view_state, AllHeldShort, service_answer};

use crate::slot::SlotState;
pub use crate::states::{Slots, start};
use outcomes::Reported;
use record::refusal::Refusal;

impl Slots {
    // Posts a job to an empty slot. A refusal leaves the slots as they were.
    pub fn post(&mut self, which: usize, job: &[u8]) -> Result<(), Refusal>
        ensures answer_value { reply result ≡ post_of (view_state self.old) which job.now }
        ensures by_index { (n : ℕ) → reply result ≡ refused n → self.new ≡ self.old }
        ensures slots_value { view_state self.new ≡ after_post (view_state self.old) which job.now }
        ensures held_short { AllHeldShort self.old → AllHeldShort self.new }
    {
        self.check_post(which, job)?;
        self.states[which] = SlotState::fresh(job);
        Ok(())
    }

    // One turn: the next working slot tries one candidate, and the answer is which one it is. Where no slot is working, nothing changes.
    pub fn turn(&mut self) -> Option<usize>
        ensures answer_value { service_answer result ≡ served_by (view_state self.old) }
        ensures slots_value { service_answer result ≡ none → self.new ≡ self.old }
        ensures slots_value_2 { view_state self.new ≡ after_turn (view_state self.old) }
        ensures held_short { AllHeldShort self.old → AllHeldShort self.new }
    {
        let i = self.next_working()?;
        self.states[i].serve();
        self.last = i;
        Some(i)
    }

    // Writes the answer of a finished slot to the front of `answer`, as `search` does, and empties the slot. It is emptied at a 14 too; any
    // other refusal changes nothing.
    pub fn collect(&mut self, which: usize, answer: &mut [u8]) -> Result<Reported, Refusal>
        ensures answer_value { reply result ≡ reported (collect_of (view_state self.old) which (length answer.old)) }
        ensures answer_bound { IfOk result (λ r. r.size ≤ 15) }
        ensures by_index { (n : ℕ) → reply result ≡ refused n → (n ≡ 14 → ⊥) → self.new ≡ self.old }
        ensures slots_value { view_state self.new ≡ after_collect (view_state self.old) which (length answer.old) }
        ensures held_short { AllHeldShort self.old → AllHeldShort self.new }
        ensures answer_after { answer.new ≡ written (collect_of (view_state self.old) which (length answer.old)) answer.old }
    {
        self.check_collect(which, answer.len())?;
        let told = self.states[which].tell(answer);
        self.states[which] = SlotState::vacant();
        told
    }
}
