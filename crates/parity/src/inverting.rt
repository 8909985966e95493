// Inversions of a table: the pairs of rows with the larger value in the earlier row.
ghost use Rattle.std.specs.Prelude.{◌≡◌, map, ◌≤◌, ◌%◌, length};
ghost use Rattle.table.specs.Rows.{value_of};
ghost use Rattle.parity.specs.Parity.{smaller, inversions};

// How many rows have a value below `x`.
fn smaller(x: u8, rows: &[u8]) -> usize
    ensures value { result ≡ smaller x (map value_of rows.now) }
    ensures upper_bound { result ≤ length rows.now }
{
    rows.iter().filter(|&&row| row % 16 < x).count()
}

// The parity of the number of inversions: that number modulo 2.
pub fn inversion_parity(rows: &[u8]) -> usize
    ensures { result ≡ inversions (map value_of rows.now) % 2 }
{
    let mut odd = 0;
    for (i, &row) in rows.iter().enumerate() {
        odd = (odd + smaller(row % 16, &rows[i + 1..])) % 2;
    }
    odd
}
