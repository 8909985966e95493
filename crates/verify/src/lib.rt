// Circuits run, measured, and verified against a job (document 01: judged). This root has the public calls `measure` and `verify`.
// - `rules`: the rules that verifying adds to those of measuring.
// - `limits`: the job's limits on gates, cost and depth.
// - `runs`: the public calls `run_forwards` and `run_backwards`.
#![tactic(auto)]

pub mod limits;
pub mod rules;
pub mod runs;

ghost use Rattle.std.specs.Prelude.{◌≡◌};
ghost use Rattle.record.specs.circuit_rules.CircuitRules.{circuit_code};
ghost use Rattle.record.specs.Answers.{reply};
ghost use Rattle.verify.specs.Calls.{measures_for, measure_of, verify_of};

pub use crate::runs::{run_backwards, run_forwards};
use circuit::measures;
use circuit::measures::Measures;
use record::refusal::Refusal;
use record::{circuit_fields, job_fields, pair_codes};

// The measures of a sound circuit at a job's prices and durations.
fn measures_for(job: &[u8], c: &[u8]) -> Measures
    requires { circuit_code c.now ≡ 0 }
    ensures { result ≡ measures_for job.now c.now }
{
    measures::measure_list(
        circuit_fields::gate_list(c),
        job_fields::prices(job),
        job_fields::durations(job),
    )
}

// Measures a circuit at a job's prices and durations.
#[tactic(auto, using(crate::proofs::Codes::measured), unfolding(crate::specs::Calls::measure_of))]
pub fn measure(job: &[u8], c: &[u8]) -> Result<Measures, Refusal>
    ensures { reply result ≡ measure_of job.now c.now }
{
    pair_codes::check_measure(job, c)?;
    Ok(measures_for(job, c))
}

// Verifies that a circuit realizes the table of a job within its limits. A pass returns the measures.
#[tactic(auto, using(crate::proofs::Codes::measured), unfolding(crate::specs::Calls::verify_of, crate::specs::Calls::verify_code))]
pub fn verify(job: &[u8], c: &[u8]) -> Result<Measures, Refusal>
    ensures { reply result ≡ verify_of job.now c.now }
{
    pair_codes::check_measure(job, c)?;
    let m = measures_for(job, c);
    rules::check_rest(job, c, m)?;
    Ok(m)
}
