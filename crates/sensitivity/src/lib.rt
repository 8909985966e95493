// What a change of one price does to the least cost. The call `price_change` takes two jobs that are alike but for one price, both with
// cost limit 65,535, searches both, and returns the new least cost less the old. A caller may also get a refusal code: that of a job, 38
// for two jobs that may not be compared, or 14 where neither has a circuit.
#![tactic(auto)]

pub mod alike; // which two jobs may be compared
pub mod difference; // the difference of two costs, with its sign
pub mod repriced; // theorems: how far a change of one price moves the least cost (no code)

ghost use Rattle.std.specs.Prelude.{◌≡◌};
ghost use Rattle.record.specs.Answers.{reply};
ghost use Rattle.outcomes.specs.Outcomes.{search_of, reported};
ghost use Rattle.sensitivity.specs.Calls.{price_change};

use outcomes::Reported;
use record::refusal::Refusal;

// What the search reports of a job. The circuit itself is not kept.
fn searched(job: &[u8]) -> Result<Reported, Refusal>
    ensures { reply result ≡ reported (search_of job.now 15) }
{
    let mut answer = [0u8; 15];
    search::search(job, &mut answer)
}

// Compares two jobs that are alike but for one price: returns the new least cost less the old.
#[tactic(auto, unfolding(crate::specs::Calls::price_change))]
pub fn price_change(old: &[u8], new: &[u8]) -> Result<i32, Refusal>
    ensures { reply result ≡ price_change old.now new.now }
{
    alike::check_compare(old, new)?;
    let before = searched(old)?;
    let after = searched(new)?;
    Ok(difference::cost_difference(before.measures.cost, after.measures.cost))
}
