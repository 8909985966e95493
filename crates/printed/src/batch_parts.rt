// What `gazbolk batch` prints: how many parts, and how many bytes of the file decide them.
ghost use Rattle.std.specs.Prelude.{◌≡◌, ◌≤◌, length};
ghost use Rattle.printed.specs.batch_parts.Parts.{batch_parts, TellingBatch};

use batch::cutting;

// How many bytes of a batch's file decide what is printed: one more than the longest batch has.
pub fn batch_room() -> usize
    ensures telling_batch { TellingBatch result }
    ensures upper_bound { result ≤ 4096 }
{
    1793
}

// How many parts are printed for a batch: a line for each job, or one refusal.
pub fn batch_parts(jobs: &[u8]) -> usize
    ensures { result ≡ length (batch_parts jobs.now) }
{
    let cut = cutting::cut_off(jobs);
    if cut.end == jobs.len() { cut.count } else { 1 }
}
