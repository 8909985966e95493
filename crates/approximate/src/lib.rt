// The public call `closest`: of the circuits within all limits, the one that misses the fewest wanted bits of the table. A caller gets the
// record in the answer buffer, its length and measures, and the number of wanted bits that it misses: 0 exactly where `search` finds a
// circuit, and then both give the same record. There is always such a circuit, so only the job's own checks and 13 refuse
// (proofs/Promises.antt).
#![tactic(auto)]

ghost use Rattle.std.specs.Prelude.{◌≡◌, ◌≤◌, length, IfOk};
ghost use Rattle.record.specs.Answers.{reply};
ghost use Rattle.record.specs.JobRules.{job_code};
ghost use Rattle.record.specs.job_fields.Jobs.{data_wires, rows};
ghost use Rattle.problem.specs.order.View.{view};
ghost use Rattle.problem.specs.Problems.{first_good};
ghost use Rattle.near_misses.specs.misses.Misses.{missing_at_most};
ghost use Rattle.outcomes.specs.Outcomes.{problem_of, written};
ghost use Rattle.approximate.specs.Calls.{fewest_for, closest_for, closest_of, circuit_in, told};

use near_misses::near_walk;
use outcomes::Reported;
use problem::order::Best;
use record::call_codes;
use record::refusal::Refusal;

// What is reported of the closest circuit: what the search reports of one, and the number of wanted bits that it misses.
#[derive(Clone, Copy)]
pub struct Nearest {
    pub report: Reported,
    pub misses: usize,
}

// The closest choice, and the number of wanted bits that it misses.
#[derive(Clone, Copy)]
struct Near {
    misses: usize,
    best: Option<Best>,
}

// The first choice within the limits of a well-formed job that misses at most `k` wanted bits.
fn at_most(job: &[u8], k: usize) -> Option<Best>
    requires { job_code job.now ≡ 0 }
    ensures { view result
        ≡ first_good (missing_at_most (data_wires job.now) (rows job.now) k (problem_of job.now)) }
{
    let own = outcomes::own_stock(job);
    near_walk::run(own.entries(), search::task_of(job), k)
}

// The closest choice. The search is tried first; as long as nothing is found, one more missed bit is allowed at each turn. A table wants at
// most 64 bits, so that 64 turns are enough.
fn approach(job: &[u8]) -> Near
    requires { job_code job.now ≡ 0 }
    ensures { (result.misses ≡ fewest_for job.now) × (view result.best ≡ closest_for job.now) }
{
    let mut best = search::first_good(job);
    for k in 0..64 {
        if best.is_some() {
            return Near { misses: k, best };
        }
        let next = at_most(job, k + 1);
        best = next;
    }
    Near { misses: 64, best }
}

// Searches for the circuit within all limits that misses the fewest wanted bits, of several the first in the search's order, and writes its
// record to the front of `answer`.
pub fn closest(job: &[u8], answer: &mut [u8]) -> Result<Nearest, Refusal>
    ensures result_value { reply result ≡ told (closest_of job.now (length answer.old)) }
    ensures result_bound { IfOk result (λ n. n.report.size ≤ 15) }
    ensures answer_after { answer.new
        ≡ written (circuit_in (closest_of job.now (length answer.old))) answer.old }
{
    call_codes::check_search(job, answer.len())?;
    let near = approach(job);
    let best = outcomes::found(near.best)?;
    let measures = outcomes::measures_of(job, best.gates());
    let report = outcomes::tell(job, Some(best), measures, answer)?;
    Ok(Nearest {
        report,
        misses: near.misses,
    })
}
