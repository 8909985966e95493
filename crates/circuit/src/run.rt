// Running a gate list on a value of the wires, forwards and backwards.
ghost use Rattle.std.specs.Prelude.{◌≡◌, ◌+◌};
ghost use Rattle.circuit.specs.run.Run.{forwards, backwards};

use gate::step;

// The value after the list, with its first gate applied first.
pub fn forwards(gates: &[u8], value: usize) -> usize
    ensures { result ≡ forwards gates.now value }
{
    gates.iter().fold(value, |v, &b| step::step(b, v))
}

// The value after the list, with its last gate applied first.
pub fn backwards(gates: &[u8], value: usize) -> usize
    ensures { result ≡ backwards gates.now value }
{
    gates.iter().rev().fold(value, |v, &b| step::step(b, v))
}
