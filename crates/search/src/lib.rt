// The public call `search`: it checks a job, hands the job's problem to the solver, and writes the cheapest circuit as a record. A caller
// gets the record's length and measures, or a refusal code, among them 14: no circuit within the limits realizes the table. Here the record
// crates and the search crates meet. Other calls use the parts: `solve_among` searches among given gates, `first_good` among a job's own,
// and `task_of` is a job as the solver's task.
#![tactic(auto)]

ghost use Rattle.std.specs.Prelude.{◌≡◌, ◌≤◌, length, IfOk};
ghost use Rattle.record.specs.Answers.{reply};
ghost use Rattle.record.specs.JobRules.{job_code};
ghost use Rattle.problem.specs.Entries.{entry_gates};
ghost use Rattle.problem.specs.order.View.{view};
ghost use Rattle.problem.specs.Problems.{first_good};
ghost use Rattle.outcomes.specs.Outcomes.{GateSet, problem_over, problem_of, search_of, reported, written};
ghost use Rattle.outcomes.specs.Inner.{Lawfuls, Tabled};
ghost use Rattle.search.specs.Inner.{task_of};

use columns::table_columns;
use outcomes::{Reported, preflight};
use problem::Entry;
use problem::order::Best;
use record::refusal::Refusal;
use record::{call_codes, job_fields};
use walk::node::Task;

// The solver's task for a well-formed job: the wanted columns, the number of outputs, whether the layout is free, and the limits.
pub fn task_of(job: &[u8]) -> Task
    requires { job_code job.now ≡ 0 }
    ensures { result ≡ task_of job.now }
{
    Task {
        wanted: table_columns::wanted_of(job_fields::table(job)),
        outputs: job_fields::data_wires(job),
        free: job_fields::free_layout(job),
        controls: job_fields::most_controls(job),
        gate_limit: job_fields::gate_limit(job),
        cost_limit: job_fields::cost_limit(job),
        depth_limit: job_fields::depth_limit(job),
    }
}

// The first good choice of a well-formed job among the gates of these entries, at their prices and durations.
pub fn solve_among(job: &[u8], entries: &[Entry]) -> Option<Best>
    requires job_value { job_code job.now ≡ 0 }
    requires lawfuls { Lawfuls job.now (entry_gates entries.now) }
    ensures { (G : GateSet) → Tabled G entries.now → view result ≡ first_good (problem_over G job.now) }
{
    if preflight::always_none(job) {
        return None;
    }
    solver::solve(entries, task_of(job))
}

// The first good choice of a well-formed job among its own gates.
pub fn first_good(job: &[u8]) -> Option<Best>
    requires { job_code job.now ≡ 0 }
    ensures { view result ≡ first_good (problem_of job.now) }
{
    let own = outcomes::own_stock(job);
    solve_among(job, own.entries())
}

// Searches for the circuit that comes first by cost, then gates, depth, layout and gate bytes, and writes its record to the front of
// `answer`.
pub fn search(job: &[u8], answer: &mut [u8]) -> Result<Reported, Refusal>
    ensures result_value { reply result ≡ reported (search_of job.now (length answer.old)) }
    ensures result_bound { IfOk result (λ r. r.size ≤ 15) }
    ensures answer_after { answer.new ≡ written (search_of job.now (length answer.old)) answer.old }
{
    call_codes::check_search(job, answer.len())?;
    let best = outcomes::found(first_good(job))?;
    let measures = outcomes::measures_of(job, best.gates());
    outcomes::tell(job, Some(best), measures, answer)
}
