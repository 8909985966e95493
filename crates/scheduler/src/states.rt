// All eight slots: the one to be served next, and the rules of `post` and `collect`.
ghost use Rattle.std.specs.Prelude.{◌≡◌, true, ◌<◌, ◌≤◌, ◌%◌, IfSome, IfOk};
ghost use Rattle.record.specs.Answers.{code_of};
ghost use Rattle.record.specs.JobRules.{job_code};
ghost use Rattle.scheduler.specs.slot.Slots.{is_finished};
ghost use Rattle.scheduler.specs.slot.View.{view_slot};
ghost use Rattle.scheduler.specs.states.States.{start_state, slot_at, with_slot, post_code, served_by, collect_code};
ghost use Rattle.scheduler.specs.states.Calls.{view_state, AllHeldShort, service_answer};

use crate::slot::SlotState;
use record::refusal;
use record::refusal::Refusal;

// Eight slots, and which of them was served last.
#[derive(Clone, Copy)]
pub struct Slots {
    pub states: [SlotState; 8],
    pub last: usize,
}

// Eight empty slots; slot 7 counts as served last.
pub fn start() -> Slots
    ensures state { view_state result ≡ start_state }
    ensures held_short { AllHeldShort result }
{
    let state = SlotState::vacant();
    Slots {
        states: [state; 8],
        last: 7,
    }
}

impl Slots {
    // Slot `i`, or an empty one where there is no slot `i`.
    pub fn slot_at(&self, i: usize) -> SlotState
        ensures { view_slot result ≡ slot_at (view_state self.now) i }
    {
        if i < 8 {
            self.states[i]
        } else {
            SlotState::vacant()
        }
    }

    // The slots with `state` as slot `i`, and `last` as the slot served last. Where there is no slot `i`, only that changes.
    pub fn with_slot(self, i: usize, state: SlotState, last: usize) -> Slots
        ensures { view_state result ≡ with_slot (view_state self) i (view_slot state) (last % 8) }
    {
        let mut states = self.states;
        if i < 8 {
            states[i] = state;
        }
        Slots { states, last }
    }

    // The rules of posting: there is such a slot, it is empty, the job is well-formed.
    #[tactic(auto, using(crate::proofs::states::Views::slot_in), unfolding(crate::specs::states::States::post_code))]
    pub fn check_post(&self, which: usize, job: &[u8]) -> Result<(), Refusal>
        ensures value { code_of result ≡ post_code (view_state self.now) which job.now }
        ensures inside { IfOk result (λ _. which < 8) }
        ensures sound { IfOk result (λ _. job_code job.now ≡ 0) }
    {
        refusal::kept(which <= 7, Refusal::NoSlot)?;
        refusal::kept(self.states[which].is_empty(), Refusal::SlotTaken)?;
        record::check_job(job)
    }

    // The rules of collecting: there is such a slot, it is finished, the answer has room.
    #[tactic(auto, using(crate::proofs::states::Views::slot_in), unfolding(crate::specs::states::States::collect_code))]
    pub fn check_collect(&self, which: usize, room: usize) -> Result<(), Refusal>
        ensures value { code_of result ≡ collect_code (view_state self.now) which room }
        ensures inside { IfOk result (λ _. which < 8) }
        ensures finished { IfOk result (λ _. is_finished (slot_at (view_state self.now) which) ≡ true) }
        ensures room { IfOk result (λ _. 15 ≤ room) }
    {
        refusal::kept(which <= 7, Refusal::NoSlot)?;
        refusal::kept(self.states[which].is_finished(), Refusal::SlotUnfinished)?;
        refusal::kept(15 <= room, Refusal::AnswerRoom)
    }

    // The next working slot after the one served last, 7 followed by 0.
    #[tactic(auto, using(crate::proofs::states::Serving::looking))]
    pub fn next_working(&self) -> Option<usize>
        ensures value { service_answer result ≡ served_by (view_state self.now) }
        ensures upper_bound { IfSome result (λ i. i < 8) }
    {
        for step in 0..8 {
            let at = (self.last % 8 + step + 1) % 8;
            if self.states[at].is_working() {
                return Some(at);
            }
        }
        None
    }
}
