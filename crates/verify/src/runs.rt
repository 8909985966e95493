// The public calls that run a circuit on a value, forwards and backwards.
ghost use Rattle.std.specs.Prelude.{◌≡◌};
ghost use Rattle.record.specs.Answers.{reply};
ghost use Rattle.verify.specs.runs.Runs.{forwards_of, backwards_of};

use circuit::run;
use record::refusal::Refusal;
use record::{call_codes, circuit_fields};

// Runs a circuit from its first gate to its last.
#[tactic(auto, using(crate::proofs::runs::Ended::small_ends), unfolding(crate::specs::runs::Runs::run_of))]
pub fn run_forwards(c: &[u8], value: u8) -> Result<u8, Refusal>
    ensures { reply result ≡ forwards_of c.now value }
{
    call_codes::check_run(c, value)?;
    Ok(run::forwards(circuit_fields::gate_list(c), usize::from(value)) as u8)
}

// Runs a circuit from its last gate to its first.
#[tactic(auto, using(crate::proofs::runs::Ended::small_ends), unfolding(crate::specs::runs::Runs::run_of))]
pub fn run_backwards(c: &[u8], value: u8) -> Result<u8, Refusal>
    ensures { reply result ≡ backwards_of c.now value }
{
    call_codes::check_run(c, value)?;
    Ok(run::backwards(circuit_fields::gate_list(c), usize::from(value)) as u8)
}
