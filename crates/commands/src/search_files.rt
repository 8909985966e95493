// `gazbolk search`, with a library or without one, and `gazbolk batch`.
ghost use Rattle.std.specs.Prelude.{◌≡◌, ◌<◌, ◌≤◌, length, IfOk};
ghost use Rattle.record.specs.Answers.{reply};
ghost use Rattle.outcomes.specs.Outcomes.{reported, written};
ghost use Rattle.text.specs.pieces.Text.{in_front};
ghost use Rattle.batch.specs.cutting.Records.{count_of, job_at};
ghost use Rattle.printed.specs.job_line.Lines.{line_of};
ghost use Rattle.printed.specs.batch_parts.Parts.{batch_parts, part_at};
ghost use Rattle.printed.specs.files.Files.{lent, finding, search_text};

use crate::program;
use batch::cutting;
use outcomes::Reported;
use record::refusal::Refusal;
use reports::refusal;

// Searches for a job's circuit, with the library if one is lent.
#[tactic(auto, unfolding(printed::specs::files::Files::finding))]
fn find(job: &[u8], library: Option<&[u8]>, answer: &mut [u8]) -> Result<Reported, Refusal>
    ensures result_value { reply result
        ≡ reported (finding job.now (lent library.entry) (length answer.old)) }
    ensures result_bound { IfOk result (λ found. found.size ≤ 15) }
    ensures answer_after { answer.new
        ≡ written (finding job.now (lent library.entry) (length answer.old)) answer.old }
{
    match library {
        Some(library) => library::search_with(job, library, answer),
        None => search::search(job, answer),
    }
}

// Searches for a job's circuit and writes what is printed to the start of `out`; returns its length.
pub fn search_text(job: &[u8], library: Option<&[u8]>, out: &mut [u8]) -> usize
    requires { 128 ≤ length out.old }
    ensures value { result ≡ length (search_text job.now (lent library.entry)) }
    ensures upper_bound { result ≤ 128 }
    ensures out_after { out.new ≡ in_front (search_text job.now (lent library.entry)) out.old }
{
    let mut answer = [0u8; 15];
    match find(job, library, &mut answer) {
        Err(e) => refusal::refused_text(u8::from(e), out),
        Ok(found) => text::found_line(found.measures, &answer[..found.size], out),
    }
}

// Searches for the circuit of job i of a batch and writes its line to the start of `out`; returns its length.
fn job_line(jobs: &[u8], i: usize, out: &mut [u8]) -> usize
    requires i_bound { i < count_of jobs.now }
    requires in_bounds { 128 ≤ length out.old }
    ensures value { result ≡ length (line_of (job_at jobs.now i)) }
    ensures upper_bound { result ≤ 128 }
    ensures out_after { out.new ≡ in_front (line_of (job_at jobs.now i)) out.old }
{
    let place = cutting::record_at(jobs, i);
    program::line(&jobs[place.start..place.end], out)
}

// Writes part i of what is printed for a batch to the start of `out`; returns its length. It searches for no circuit but that of job i.
pub fn batch_part(jobs: &[u8], i: usize, out: &mut [u8]) -> usize
    requires i_in_bounds { i < length (batch_parts jobs.now) }
    requires in_bounds { 128 ≤ length out.old }
    ensures value { result ≡ length (part_at jobs.now i) }
    ensures upper_bound { result ≤ 128 }
    ensures out_after { out.new ≡ in_front (part_at jobs.now i) out.old }
{
    let cut = cutting::cut_off(jobs);
    if cut.end == jobs.len() {
        job_line(jobs, i, out)
    } else {
        refusal::refused_text(u8::from(Refusal::BatchForm), out)
    }
}
