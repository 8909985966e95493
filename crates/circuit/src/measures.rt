// All measures of a gate list in one struct.
ghost use Rattle.std.specs.Prelude.{◌≡◌, ◌≤◌, length};
ghost use Rattle.circuit.specs.measures.Measures.{measures_with, measures_of};

use crate::{Rate, timing};

// The number of gates, the cost and the depth, and the ready time of each of five wires, which is 0 for a wire that the circuit lacks.
// Five fields and no array: docs/API.md promises their names.
#[derive(Clone, Copy)]
pub struct Measures {
    pub gates: u8,
    pub cost: u16,
    pub depth: u16,
    pub ready0: u16,
    pub ready1: u16,
    pub ready2: u16,
    pub ready3: u16,
    pub ready4: u16,
}

// The measures of a list of `gates` gates with this cost and these ready times.
pub fn measures_with(gates: u8, cost: u16, times: [u16; 5]) -> Measures
    ensures { result ≡ measures_with gates cost times }
{
    Measures {
        gates,
        cost,
        depth: timing::latest(times),
        ready0: times[0],
        ready1: times[1],
        ready2: times[2],
        ready3: times[3],
        ready4: times[4],
    }
}

// The measures of a gate list at these prices and durations.
#[tactic(auto, unfolding(crate::specs::measures::Measures::measures_of))]
pub fn measure_list<P: Rate, D: Rate>(list: &[u8], prices: P, durations: D) -> Measures
    requires { length list.now ≤ 255 }
    ensures { result ≡ measures_of (P.rate prices) (D.rate durations) list.now }
{
    let count = list.len() as u8;
    let cost = crate::cost(list, prices);
    let times = timing::ready_times(list, durations);
    measures_with(count, cost, times)
}
