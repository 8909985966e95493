// The rules that verifying (document 01: judging) adds to those of measuring: the layout is allowed, the wanted bits are right, the ancilla
// is clean, and the measures are within the limits.
ghost use Rattle.std.specs.Prelude.{◌≡◌};
ghost use Rattle.record.specs.JobRules.{job_code};
ghost use Rattle.record.specs.Answers.{code_of};
ghost use Rattle.verify.specs.Calls.{verify_rest};

use crate::limits;
use circuit::measures::Measures;
use record::refusal::Refusal;
use record::{circuit_fields, job_fields, refusal};
use table::{agreement, cleaning, layouts};

// Checks these rules for a circuit with the measures `m`.
#[tactic(auto, using(record::proofs::Kept::sound_job), unfolding(crate::specs::Calls::verify_rest))]
pub fn check_rest(job: &[u8], c: &[u8], m: Measures) -> Result<(), Refusal>
    requires { job_code job.now ≡ 0 }
    ensures { code_of result ≡ verify_rest job.now c.now m }
{
    let n = job_fields::data_wires(job);
    let p = circuit_fields::layout_of(c);
    let gates = circuit_fields::gate_list(c);
    refusal::kept(
        layouts::allowed(n, job_fields::free_layout(job), p),
        Refusal::LayoutNotAllowed,
    )?;
    refusal::kept(
        agreement::agrees(p, gates, job_fields::table(job)),
        Refusal::TableMissed,
    )?;
    refusal::kept(cleaning::clean(n, gates), Refusal::DirtyAncilla)?;
    limits::check_limits(job, m)
}
