// Whether the measures of a circuit are within a job's limits on gates, cost and depth.
ghost use Rattle.std.specs.Prelude.{◌≡◌};
ghost use Rattle.record.specs.Answers.{code_of};
ghost use Rattle.verify.specs.limits.Limits.{limits_code};

use circuit::measures::Measures;
use record::refusal::Refusal;
use record::{job_fields, refusal};

// Checks the job's limits: gates (17), cost (18) and depth (19).
#[tactic(auto, unfolding(crate::specs::limits::Limits::limits_code))]
pub fn check_limits(job: &[u8], m: Measures) -> Result<(), Refusal>
    ensures { code_of result ≡ limits_code job.now m }
{
    refusal::kept(
        usize::from(m.gates) <= job_fields::gate_limit(job),
        Refusal::TooManyGates,
    )?;
    refusal::kept(
        usize::from(m.cost) <= job_fields::cost_limit(job),
        Refusal::TooDear,
    )?;
    refusal::kept(
        usize::from(m.depth) <= job_fields::depth_limit(job),
        Refusal::TooDeep,
    )
}
