// Whether a gate list is clean: it returns the ancilla to 0 in every row.
ghost use Rattle.std.specs.Prelude.{◌≡◌, ◌<◌};
ghost use Rattle.circuit.specs.run.Run.{forwards};
ghost use Rattle.table.specs.Rows.{clean};

use circuit::run;

// Whether the ancilla, wire `n`, ends at 0 in all 2^n rows, also in those in which no bit is wanted.
pub fn clean(n: usize, list: &[u8]) -> bool
    requires { n < 64 }
    ensures { result ≡ clean n (forwards list.now) }
{
    (0..1 << n).all(|x| (run::forwards(list, x) >> n) % 2 == 0)
}
