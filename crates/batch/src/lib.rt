// A batch: up to 64 job records back to back, all searched by the call `search_all`. Each job has an answer cell of 15 bytes and a status
// byte of its own, which end as the call `search` on that job alone would leave them: the record and 0, or the cell untouched and the
// refusal code. A caller gets the number of jobs; or 26 or 27, and then nothing is written.
#![tactic(auto)]

pub mod cells; // the rules of a batch, what it leaves in each cell and status byte, and the theorems on both
pub mod cutting; // the records of a batch, cut off one after the other

ghost use Rattle.std.specs.Prelude.{◌≡◌, ◌*◌, ◌≤◌, ◌++◌, length, take, drop, set};
ghost use Rattle.record.specs.Answers.{reply};
ghost use Rattle.outcomes.specs.Outcomes.{written};
ghost use Rattle.batch.specs.cutting.Records.{records};
ghost use Rattle.batch.specs.cells.Batches.{batch_of, alone_of, status_of, cells_after};
ghost use Rattle.batch.specs.cells.Batches.{statuses_after, answers_left, statuses_left};

use record::refusal::Refusal;

// Searches one job into its cell, and returns its status: 0 or the refusal code.
fn search_cell(job: &[u8], cell: &mut [u8]) -> u8
    requires { length cell.old ≡ 15 }
    ensures value { result ≡ status_of (alone_of job.now) }
    ensures cell_after { cell.new ≡ written (alone_of job.now) cell.old }
{
    match search::search(job, cell) {
        Ok(_) => 0,
        Err(refusal) => u8::from(refusal),
    }
}

// Searches the job in the first `size` bytes, into the first cell and status byte.
fn search_front(jobs: &[u8], size: usize, answers: &mut [u8], statuses: &mut [u8])
    requires size_in_bounds { size ≤ length jobs.now }
    requires in_bounds { 15 ≤ length answers.old }
    requires in_bounds_2 { 1 ≤ length statuses.old }
    ensures answers_after { answers.new
        ≡ written (alone_of (take size jobs.now)) (take 15 answers.old) ++ drop 15 answers.old }
    ensures statuses_after { statuses.new ≡ set statuses.old 0 (status_of (alone_of (take size jobs.now))) }
{
    statuses[0] = search_cell(&jobs[..size], &mut answers[..15]);
}

// Searches the records at the front, at most `most` of them, each into its own cell and status byte.
fn search_each(most: usize, jobs: &[u8], answers: &mut [u8], statuses: &mut [u8])
    requires jobs_in_bounds { 15 * length (records most jobs.now) ≤ length answers.old }
    requires jobs_in_bounds_2 { length (records most jobs.now) ≤ length statuses.old }
    ensures answers_after { answers.new ≡ cells_after (records most jobs.now) answers.old }
    ensures statuses_after { statuses.new ≡ statuses_after (records most jobs.now) statuses.old }
{
    if most == 0 {
        return;
    }
    let size = cutting::record_size(jobs);
    if size == 0 {
        return;
    }
    search_front(jobs, size, answers, statuses);
    search_each(
        most - 1,
        &jobs[size..],
        &mut answers[15..],
        &mut statuses[1..],
    );
}

// Searches every job of a batch into its own cell and status byte, and returns the number of jobs.
pub fn search_all(jobs: &[u8], answers: &mut [u8], statuses: &mut [u8]) -> Result<usize, Refusal>
    ensures result_value { reply result ≡ batch_of jobs.now (length answers.old) (length statuses.old) }
    ensures answers_after { answers.new ≡ answers_left jobs.now answers.old statuses.old }
    ensures statuses_after { statuses.new ≡ statuses_left jobs.now answers.old statuses.old }
{
    cells::check_batch(jobs, answers.len(), statuses.len())?;
    search_each(64, jobs, answers, statuses);
    Ok(cutting::cut_off(jobs).count)
}
