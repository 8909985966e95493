// What is settled before the solver runs: whether parity rules out every circuit, and the price and duration of each gate.
ghost use Rattle.std.specs.Prelude.{◌≡◌, ◌≤◌, length, take, map};
ghost use Rattle.outcomes.specs.preflight.Odd.{always_none};
ghost use Rattle.outcomes.specs.Inner.{weighed};

use circuit::{Rate, Weights};
use problem::Entry;
use record::job_fields;

// Whether parity rules out every list of any length: the table is an odd permutation of four data wires, there is no ancilla, and no gate
// has more than two controls. Each such gate is an even permutation, and so is every list of them.
pub fn always_none(job: &[u8]) -> bool
    ensures { result ≡ always_none job.now }
{
    let bare = logic::both(
        job_fields::data_wires(job) == 4,
        job_fields::ancillas(job) == 0,
    );
    let odd = logic::both(job_fields::most_controls(job) == 2, parity::odd_table(job));
    logic::both(bare, odd)
}

// The entries of these gates, in their order: each with its weight among the prices and among the durations. No job has more than 75 gates
// to choose from.
pub fn weigh(gates: &[u8], prices: Weights, durations: Weights) -> [Entry; 75]
    requires { length gates.now ≤ 75 }
    ensures { take (length gates.now) result ≡ map (weighed prices durations) gates.now }
{
    let none = Entry {
        gate: 0,
        price: 0,
        duration: 0,
    };
    let mut entries = [none; 75];
    for (i, &gate) in gates.iter().enumerate() {
        entries[i] = Entry {
            gate,
            price: prices.weight(gate),
            duration: durations.weight(gate),
        };
    }
    entries
}
