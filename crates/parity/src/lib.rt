// The parity of a job's table: even or odd where the table is a full permutation, else neither. This root has the public call `parity`.
// - `inverting`: inversions of a table, counted modulo 2.
// - `odd_tables`: why gates of at most two controls cannot realize an odd table on four wires without an ancilla; theorems only.
// - `permuting`: whether a table is a full permutation.
#![tactic(auto)]

pub mod inverting;
pub mod odd_tables;
pub mod permuting;

ghost use Rattle.std.specs.Prelude.{◌≡◌};
ghost use Rattle.parity.specs.Parity.{is_odd, table_parity, parity_of, parity_is, parity_answer, permutes};

use record::job_fields;
use record::refusal::Refusal;

// The parity of a table: even or odd where the table is a full permutation, else neither.
#[derive(Clone, Copy, Debug, PartialEq, Eq)]
pub enum TableParity {
    Even,
    Odd,
    Neither,
}

// Whether the table is an odd permutation.
#[tactic(auto, unfolding(crate::specs::Parity::table_parity))]
pub fn odd_table(job: &[u8]) -> bool
    ensures { result ≡ is_odd (table_parity job.now) }
{
    permuting::permutes(job) && inverting::inversion_parity(job_fields::table(job)) == 1
}

// The parity of a job's table, without the job's checks.
#[tactic(auto, unfolding(crate::specs::Parity::table_parity))]
fn table_parity(job: &[u8]) -> TableParity
    ensures { parity_is result ≡ table_parity job.now }
{
    if !permuting::permutes(job) {
        return TableParity::Neither;
    }
    if inverting::inversion_parity(job_fields::table(job)) == 1 {
        TableParity::Odd
    } else {
        TableParity::Even
    }
}

// Checks a job and finds the parity of its table.
#[tactic(auto, unfolding(crate::specs::Parity::parity_of))]
pub fn parity(job: &[u8]) -> Result<TableParity, Refusal>
    ensures { parity_answer result ≡ parity_of job.now }
{
    record::check_job(job)?;
    Ok(table_parity(job))
}
