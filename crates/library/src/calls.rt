// Verifying with a library, and what the search with a library is made of: its checks, the library as a stock of gates,
// and the measures of what is found.
ghost use Rattle.std.specs.Prelude.{◌≡◌, true, ◌≤◌, length, take};
ghost use Rattle.record.specs.JobRules.{job_code};
ghost use Rattle.record.specs.circuit_rules.CircuitRules.{circuit_code};
ghost use Rattle.circuit.specs.measures.Measures.{measures_of};
ghost use Rattle.record.specs.Answers.{code_of, reply};
ghost use Rattle.library.specs.entries.Library.{entries_of, price_in, duration_in, library_sound};
ghost use Rattle.library.specs.calls.Calls.{job_with_code, search_with_code, circuit_with_code, measures_in, rest_with_code, verify_with};

use crate::entry_measures::{Durations, Prices};
use crate::{entries, entry_measures};
use circuit::measures;
use circuit::measures::Measures;
use outcomes::Stock;
use problem::Entry;
use record::refusal::Refusal;
use record::{circuit_fields, pair_codes, refusal};
use verify::rules;

// Checks the job, and then the library.
#[tactic(auto, using(record::proofs::Refusals::refusals), unfolding(crate::specs::calls::Calls::job_with_code))]
fn check_job_with(job: &[u8], library: &[u8]) -> Result<(), Refusal>
    ensures { code_of result ≡ job_with_code job.now library.now }
{
    record::check_job(job)?;
    entries::check_library(job, library)
}

// The measures of a gate list at the library's prices and durations.
pub fn measures_of(library: &[u8], gates: &[u8]) -> Measures
    requires { length gates.now ≤ 255 }
    ensures { result ≡ measures_of (price_in library.now) (duration_in library.now) gates.now }
{
    measures::measure_list(gates, Prices { library }, Durations { library })
}

// The measures of a sound circuit at the library's prices and durations.
fn measures_in(library: &[u8], c: &[u8]) -> Measures
    requires { circuit_code c.now ≡ 0 }
    ensures { result ≡ measures_in library.now c.now }
{
    measures_of(library, circuit_fields::gate_list(c))
}

// Checks the job, the library and the circuit record.
#[tactic(auto, using(record::proofs::Refusals::refusals), unfolding(crate::specs::calls::Calls::circuit_with_code))]
fn check_circuit_with(job: &[u8], library: &[u8], c: &[u8]) -> Result<(), Refusal>
    ensures { code_of result ≡ circuit_with_code job.now library.now c.now }
{
    check_job_with(job, library)?;
    pair_codes::check_circuit_for(job, c)
}

// Checks the later rules for a circuit with the measures `m`: each gate is listed, then layout, table, ancilla and limits.
#[tactic(auto, using(crate::proofs::calls::Sound::all_listed), unfolding(crate::specs::calls::Calls::rest_with_code))]
fn check_rest_with(job: &[u8], library: &[u8], c: &[u8], m: Measures) -> Result<(), Refusal>
    requires job_value { job_code job.now ≡ 0 }
    requires library_value { library_sound job.now library.now ≡ true }
    ensures { code_of result ≡ rest_with_code job.now library.now c.now m }
{
    let listed = entry_measures::all_timed(library, circuit_fields::gate_list(c));
    refusal::kept(listed, Refusal::UnlistedGate)?;
    rules::check_rest(job, c, m)
}

// Verifies a circuit for a job with a library. A pass returns the measures at the library's prices and durations.
#[tactic(auto, using(crate::proofs::calls::Sound::passed), unfolding(crate::specs::calls::Calls::verify_with, crate::specs::calls::Calls::verify_with_code))]
pub fn verify_with(job: &[u8], library: &[u8], c: &[u8]) -> Result<Measures, Refusal>
    ensures { reply result ≡ verify_with job.now library.now c.now }
{
    check_circuit_with(job, library, c)?;
    let m = measures_in(library, c);
    check_rest_with(job, library, c, m)?;
    Ok(m)
}

// The library as a stock of gates. There is room for the longest library.
pub fn stock(library: &[u8]) -> Stock
    requires { length library.now ≤ 225 }
    ensures { take result.count result.all ≡ entries_of library.now }
{
    let none = Entry {
        gate: 0,
        price: 0,
        duration: 0,
    };
    let count = library.len() / 3;
    let mut all = [none; 75];
    for i in 0..count {
        all[i] = entries::entry_at(library, i);
    }
    Stock { count, all }
}

// Checks a search with a library: the job, the library, and the room for the answer.
#[tactic(auto, using(record::proofs::Refusals::refusals), unfolding(crate::specs::calls::Calls::search_with_code))]
pub fn check_search_with(job: &[u8], library: &[u8], room: usize) -> Result<(), Refusal>
    ensures { code_of result ≡ search_with_code job.now library.now room }
{
    check_job_with(job, library)?;
    refusal::kept(15 <= room, Refusal::AnswerRoom)
}
