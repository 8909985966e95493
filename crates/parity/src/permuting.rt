// Whether a table is a full permutation: every row cares about all bits, and no value stands twice.
ghost use Rattle.std.specs.Prelude.{◌≡◌, map, ◌<◌, ◌%◌};
ghost use Rattle.logic.specs.Lists.{all_of};
ghost use Rattle.table.specs.Rows.{value_of};
ghost use Rattle.parity.specs.Parity.{full_row, differs, distinct, permutes};

use record::job_fields;

// Whether a row cares about all `n` bits.
fn full_row(n: usize, row: u8) -> bool
    requires { n < 64 }
    ensures { result ≡ full_row n row }
{
    usize::from(row) / 16 == (1 << n) - 1
}

// Whether every row cares about all `n` bits.
fn all_full(n: usize, rows: &[u8]) -> bool
    requires { n < 64 }
    ensures { result ≡ all_of (full_row n) rows.now }
{
    rows.iter().all(|&row| full_row(n, row))
}

// Whether no row has the value `x`.
fn absent(x: u8, rows: &[u8]) -> bool
    ensures { result ≡ all_of (differs x) (map value_of rows.now) }
{
    rows.iter().all(|&row| row % 16 != x)
}

// Whether no two rows have the same value.
fn distinct(rows: &[u8]) -> bool
    ensures { result ≡ distinct (map value_of rows.now) }
{
    for (i, &row) in rows.iter().enumerate() {
        if !absent(row % 16, &rows[i + 1..]) {
            return false;
        }
    }
    true
}

// Whether a job's table is a full permutation.
#[tactic(auto, unfolding(crate::specs::Parity::permutes, crate::specs::Parity::full))]
pub fn permutes(job: &[u8]) -> bool
    ensures { result ≡ permutes job.now }
{
    let rows = job_fields::table(job);
    all_full(job_fields::data_wires(job), rows) && distinct(rows)
}
