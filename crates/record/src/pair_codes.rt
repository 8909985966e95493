// The checks of calls that take a job and a circuit for it: `check_measure` for `measure` and for the first part of `verify`,
// `check_circuit_for` for `verify_with`, which has checks of its own between those of the job and those of the circuit.
ghost use Rattle.std.specs.Prelude.{◌≡◌};
ghost use Rattle.record.specs.pair_codes.Codes.{same_wires, mark_fits, circuit_code_for, measure_code};
ghost use Rattle.record.specs.Answers.{code_of};

use crate::refusal::Refusal;
use crate::{circuit_fields, circuit_rules, job_fields, refusal};

// Rule 12: the circuit has as many data wires and ancillas as the job.
#[tactic(auto, unfolding(crate::specs::pair_codes::Codes::same_wires))]
fn same_wires(job: &[u8], c: &[u8]) -> bool
    ensures { result ≡ same_wires job.now c.now }
{
    job_fields::data_wires(job) == job_fields::data_wires(c)
        && job_fields::ancillas(job) == job_fields::ancillas(c)
}

// Rule 28: the circuit is marked only if the job is a longer one.
#[tactic(auto, unfolding(crate::specs::pair_codes::Codes::mark_fits))]
fn mark_fits(job: &[u8], c: &[u8]) -> bool
    ensures { result ≡ mark_fits job.now c.now }
{
    !circuit_fields::marked(c) || job_fields::longer(job)
}

// A circuit for a job: the circuit's checks, then that its wires are the job's and that its mark fits.
#[tactic(auto, using(crate::proofs::Refusals::refusals), unfolding(crate::specs::pair_codes::Codes::circuit_code_for))]
pub fn check_circuit_for(job: &[u8], c: &[u8]) -> Result<(), Refusal>
    ensures { code_of result ≡ circuit_code_for job.now c.now }
{
    circuit_rules::check_circuit(c)?;
    refusal::kept(same_wires(job, c), Refusal::OtherWires)?;
    refusal::kept(mark_fits(job, c), Refusal::UnfitMark)
}

// Measuring: the job's checks, then those of the circuit for it.
#[tactic(auto, using(crate::proofs::Refusals::refusals), unfolding(crate::specs::pair_codes::Codes::measure_code))]
pub fn check_measure(job: &[u8], c: &[u8]) -> Result<(), Refusal>
    ensures { code_of result ≡ measure_code job.now c.now }
{
    crate::check_job(job)?;
    check_circuit_for(job, c)
}
