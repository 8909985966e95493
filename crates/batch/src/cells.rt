// The two rules of a batch. What it leaves in each cell and status byte is defined in specs/cells/Batches.antt; the theorems
// on that are in proofs/cells/Promises.antt.
ghost use Rattle.std.specs.Prelude.{◌≡◌};
ghost use Rattle.record.specs.Answers.{code_of};
ghost use Rattle.batch.specs.cells.Batches.{batch_code};

use crate::cutting;
use record::refusal;
use record::refusal::Refusal;

// Checks a batch, given the lengths of the two buffers: all of it is job records, and there is room for each.
#[tactic(auto, unfolding(crate::specs::cells::Batches::batch_code, crate::specs::cells::Batches::room_ok, crate::specs::cutting::Records::all_cut))]
pub fn check_batch(jobs: &[u8], answers: usize, statuses: usize) -> Result<(), Refusal>
    ensures { code_of result ≡ batch_code jobs.now answers statuses }
{
    let cut = cutting::cut_off(jobs);
    refusal::kept(cut.end == jobs.len(), Refusal::BatchForm)?;
    refusal::kept(
        15 * cut.count <= answers && cut.count <= statuses,
        Refusal::BatchRoom,
    )
}
