// What a search answers: a job read as a problem, the problem's first good choice as a circuit record, and the measures of that circuit.
// The solver is not called here, so that a crate which only tells of answers need not depend on it. `own_stock` gives a job's gates with
// their prices and durations, `measures_of` the measures of a list, and `tell` writes a choice to the answer buffer. Theorems: demand 3 in
// its own words (proofs/Facts.antt), and that search and verify agree (proofs/Verified.antt).
#![tactic(auto)]

pub mod preflight; // jobs that parity rules out before any search, and the price and duration of each gate

ghost use Rattle.std.specs.Prelude.{◌≡◌, ◌≤◌, length, take, Some, None, IfOk, IfErr};
ghost use Rattle.record.specs.Answers.{reply};
ghost use Rattle.record.specs.declared.refusal.Refusal.TheVariants as broken;
ghost use Rattle.record.specs.JobRules.{job_code};
ghost use Rattle.record.specs.job_fields.Jobs.{price_of, duration_of};
ghost use Rattle.circuit.specs.measures.Measures.{measures_of};
ghost use Rattle.problem.specs.Entries.{entry_gates};
ghost use Rattle.problem.specs.order.View.{view};
ghost use Rattle.outcomes.specs.Outcomes.{own_set, reported, written};
ghost use Rattle.outcomes.specs.Inner.{Lawfuls, Tabled, told_of};

use circuit::measures;
use circuit::measures::Measures;
use gate::gate_tables;
use problem::Entry;
use problem::order::Best;
use record::refusal::Refusal;
use record::{job_fields, writing};

// What is reported of a circuit that was found: the length of the record that was written, and the circuit's measures.
#[derive(Clone, Copy)]
pub struct Reported {
    pub size: usize,
    pub measures: Measures,
}

// The gates that a search may use, each with its price and duration: the first `count` of `all`.
#[derive(Clone, Copy)]
pub struct Stock {
    pub count: usize,
    pub all: [Entry; 75],
    pub ghost fits: { count ≤ 75 },
}

impl Stock {
    // The entries in use.
    pub fn entries(&self) -> &[Entry]
        ensures { result.now ≡ take self.now.count self.now.all }
    {
        &self.all[..self.count]
    }
}

// The gates lawful for a well-formed job, with the job's own prices and durations.
pub fn own_stock(job: &[u8]) -> Stock
    requires { job_code job.now ≡ 0 }
    ensures lawfuls { Lawfuls job.now (entry_gates (take result.count result.all)) }
    ensures tabled { Tabled (own_set job.now) (take result.count result.all) }
{
    let most = job_fields::most_controls(job);
    let wires = job_fields::wires(job);
    let count = gate_tables::gate_count(most, wires);
    let gates = gate_tables::gate_table(most, wires);
    let prices = job_fields::prices(job);
    let durations = job_fields::durations(job);
    Stock {
        count,
        all: preflight::weigh(&gates[..count], prices, durations),
    }
}

// The measures of a gate list at the job's prices and durations, as `verify` takes them.
pub fn measures_of(job: &[u8], gates: &[u8]) -> Measures
    requires { length gates.now ≤ 255 }
    ensures { result ≡ measures_of (price_of job.now) (duration_of job.now) gates.now }
{
    measures::measure_list(gates, job_fields::prices(job), job_fields::durations(job))
}

// The circuit that a search found, or the refusal where there is none.
pub fn found(best: Option<Best>) -> Result<Best, Refusal>
    ensures ok { IfOk result (λ b. best ≡ Some b) }
    ensures err { IfErr result (λ e. (best ≡ None) × (e ≡ broken.NoCircuit)) }
{
    best.ok_or(Refusal::NoCircuit)
}

// Writes the record of a job's first good choice to the front of `answer`, and returns its length with the measures given; 14 where there
// is no good choice.
pub fn tell(
    job: &[u8],
    best: Option<Best>,
    measures: Measures,
    answer: &mut [u8],
) -> Result<Reported, Refusal>
    requires { 15 ≤ length answer.old }
    ensures result_value { reply result ≡ reported (told_of job.now measures (view best)) }
    ensures result_bound { IfOk result (λ r. r.size ≤ 15) }
    ensures answer_after { answer.new ≡ written (told_of job.now measures (view best)) answer.old }
    ensures none_alone { IfErr result (λ _. best ≡ None) }
{
    let best = found(best)?;
    let n = job_fields::data_wires(job);
    let m = job_fields::ancillas(job);
    let mark = job_fields::longer(job);
    let path = best.path;
    let size = writing::write_record(n, m, mark, best.layout, path, best.len, answer);
    Ok(Reported { size, measures })
}
