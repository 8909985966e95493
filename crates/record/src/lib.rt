// Job and circuit records: their fields, and their checks in document 01's order with its refusals. This root has the public calls
// `check_job` and `check_circuit`.
// - `call_codes`: the checks of calls that take one record: running and searching.
// - `circuit_fields`: the fields of a circuit.
// - `circuit_rules`: the checks of a circuit.
// - `job_fields`: the fields of a job, and the wires of either record.
// - `pair_codes`: the checks of calls that take a job and a circuit: measuring and verifying.
// - `refusal`: why a call was refused.
// - `writing`: a circuit record written into a buffer.
#![tactic(auto)]

pub mod call_codes;
pub mod circuit_fields;
pub mod circuit_rules;
pub mod job_fields;
pub mod pair_codes;
pub mod refusal;
pub mod writing;

ghost use Rattle.std.specs.Prelude.{◌≡◌};
ghost use Rattle.record.specs.JobRules.{job_length_ok, size_ok, head_ok, limit_ok, durations_ok, rows_ok, job_code};
ghost use Rattle.record.specs.Answers.{code_of};

pub use crate::circuit_rules::check_circuit;
use crate::refusal::Refusal;

// Rule 1: a job has 20 or 28 bytes, or 22 or 30 with a fourth kind of gate.
#[tactic(auto, unfolding(crate::specs::JobRules::job_length_ok))]
fn job_length_ok(job: &[u8]) -> bool
    ensures { result ≡ job_length_ok job.now }
{
    job.len() == 20 || job.len() == 28 || job_fields::longer(job)
}

// Rule 2: the length fits the number of data wires.
#[tactic(auto, unfolding(crate::specs::JobRules::size_ok))]
fn size_ok(job: &[u8]) -> bool
    ensures { result ≡ size_ok job.now }
{
    match job_fields::data_wires(job) {
        3 => job.len() == 20 || job.len() == 22,
        4 => job.len() == 28 || job.len() == 30,
        _ => false,
    }
}

// Rule 3: at most one ancilla, and the last two bits of byte 0 are zero.
#[tactic(auto, unfolding(crate::specs::JobRules::head_ok))]
fn head_ok(job: &[u8]) -> bool
    ensures { result ≡ head_ok job.now }
{
    job_fields::ancillas(job) <= 1 && logic::at(job, 0) % 4 == 0
}

// Rule 4: the gate limit is at most 12.
#[tactic(auto, unfolding(crate::specs::JobRules::limit_ok))]
fn limit_ok(job: &[u8]) -> bool
    ensures { result ≡ limit_ok job.now }
{
    job_fields::gate_limit(job) <= 12
}

// Rule 5: no duration is 0.
#[tactic(auto, unfolding(crate::specs::JobRules::durations_ok))]
fn durations_ok(job: &[u8]) -> bool
    ensures { result ≡ durations_ok job.now }
{
    let d = job_fields::durations(job);
    1 <= d.not && 1 <= d.cnot && 1 <= d.toffoli && (!job_fields::longer(job) || 1 <= d.cccnot)
}

// Rule 6: every row of the table is in order.
#[tactic(auto, unfolding(crate::specs::JobRules::rows_ok))]
fn rows_ok(job: &[u8]) -> bool
    ensures { result ≡ rows_ok job.now }
{
    table::rows_ok(job_fields::data_wires(job), job_fields::table(job))
}

// Checks a job record.
#[tactic(auto, unfolding(crate::specs::JobRules::job_code))]
pub fn check_job(job: &[u8]) -> Result<(), Refusal>
    ensures { code_of result ≡ job_code job.now }
{
    refusal::kept(job_length_ok(job), Refusal::JobLength)?;
    refusal::kept(size_ok(job), Refusal::JobSize)?;
    refusal::kept(head_ok(job), Refusal::JobHead)?;
    refusal::kept(limit_ok(job), Refusal::GateLimit)?;
    refusal::kept(durations_ok(job), Refusal::Duration)?;
    refusal::kept(rows_ok(job), Refusal::Row)
}

// The code of the first rule that a job breaks, or 0 for a well-formed job.
pub fn job_code(job: &[u8]) -> u8
    ensures { result ≡ job_code job.now }
{
    refusal::code(check_job(job))
}
