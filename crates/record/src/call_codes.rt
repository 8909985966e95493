// The checks of calls that take one record: `check_run` for `run_forwards` and `run_backwards`, `check_search` for `search` and `closest`.
ghost use Rattle.std.specs.Prelude.{◌≡◌};
ghost use Rattle.record.specs.pair_codes.Codes.{run_code, search_code};
ghost use Rattle.record.specs.Answers.{code_of};

use crate::refusal::Refusal;
use crate::{circuit_rules, job_fields, refusal};

// Running a circuit: the circuit's checks, then rule 20, that the value has no bit beyond the circuit's wires.
#[tactic(auto, using(crate::proofs::Refusals::refusals), unfolding(crate::specs::pair_codes::Codes::run_code))]
pub fn check_run(c: &[u8], value: u8) -> Result<(), Refusal>
    ensures { code_of result ≡ run_code c.now value }
{
    circuit_rules::check_circuit(c)?;
    refusal::kept(
        usize::from(value) < 1 << job_fields::wires(c),
        Refusal::Value,
    )
}

// Searching for a job: the job's checks, then rule 13, that the answer buffer has at least 15 bytes.
#[tactic(auto, using(crate::proofs::Refusals::refusals), unfolding(crate::specs::pair_codes::Codes::search_code))]
pub fn check_search(job: &[u8], room: usize) -> Result<(), Refusal>
    ensures { code_of result ≡ search_code job.now room }
{
    crate::check_job(job)?;
    refusal::kept(15 <= room, Refusal::AnswerRoom)
}
