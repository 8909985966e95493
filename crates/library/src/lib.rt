// Calls with a library, a caller's own gates, whose prices and durations take the place of the job's. `search_with` finds the cheapest
// circuit made of these gates alone; `verify_with` judges a circuit, all of whose gates must be listed. A caller gets what `search` and
// `verify` return, with three more refusal codes: 29 and 30 for the library, 31 for a gate that it does not list.
#![tactic(auto)]

pub mod entries; // a library's bytes as entries, and their checks
pub mod entry_measures; // the price and the duration of a gate by a library
pub mod calls; // `verify_with`, and what `search_with` is made of

ghost use Rattle.std.specs.Prelude.{◌≡◌, ◌≤◌, length, IfOk};
ghost use Rattle.record.specs.Answers.{reply};
ghost use Rattle.record.specs.JobRules.{job_code};
ghost use Rattle.problem.specs.order.View.{view};
ghost use Rattle.problem.specs.Problems.{first_good};
ghost use Rattle.outcomes.specs.Outcomes.{reported, written};
ghost use Rattle.library.specs.entries.Library.{library_code};
ghost use Rattle.library.specs.calls.Calls.{problem_with, search_with};

pub use crate::calls::verify_with;
use outcomes::Reported;
use problem::order::Best;
use record::refusal::Refusal;

// The first good choice of a well-formed job among the gates of a sound library.
fn first_good(job: &[u8], library: &[u8]) -> Option<Best>
    requires job_value { job_code job.now ≡ 0 }
    requires library_value { library_code job.now library.now ≡ 0 }
    ensures { view result ≡ first_good (problem_with job.now library.now) }
{
    let stock = calls::stock(library);
    search::solve_among(job, stock.entries())
}

// Searches among the gates of a library for the circuit that comes first by cost, then gates, depth, layout and gate bytes, and writes its
// record to the front of `answer`.
pub fn search_with(job: &[u8], library: &[u8], answer: &mut [u8]) -> Result<Reported, Refusal>
    ensures result_value { reply result ≡ reported (search_with job.now library.now (length answer.old)) }
    ensures result_bound { IfOk result (λ r. r.size ≤ 15) }
    ensures answer_after { answer.new
        ≡ written (search_with job.now library.now (length answer.old)) answer.old }
{
    calls::check_search_with(job, library, answer.len())?;
    let best = outcomes::found(first_good(job, library))?;
    let measures = calls::measures_of(library, best.gates());
    outcomes::tell(job, Some(best), measures, answer)
}
