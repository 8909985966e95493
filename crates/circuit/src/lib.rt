// Gate lists: what they do and what they measure. This root has the weights (prices or durations) of gates and the cost of a list.
// - `measures`: all measures of a list in one struct.
// - `reversal`: a list taken backwards; laws only.
// - `run`: running a list on a value, forwards and backwards.
// - `timing`: ready times of the wires, and the depth.
#![tactic(auto)]

pub mod measures;
pub mod reversal;
pub mod run;
pub mod timing;

ghost use Rattle.std.specs.Prelude.{◌≡◌, ℕ, ◌≤◌, ◌+◌, length};
ghost use Rattle.circuit.specs.Measure.{weight_for, weight_of, cost};

use gate::Kind;

// A price, or a duration, for each kind of gate.
#[derive(Clone, Copy)]
pub struct Weights {
    pub not: u8,
    pub cnot: u8,
    pub toffoli: u8,
    pub cccnot: u8,
}

// The weight of a kind of gate.
fn weight_for(weights: Weights, kind: Kind) -> u8
    ensures { result ≡ weight_for weights kind }
{
    match kind {
        Kind::Not => weights.not,
        Kind::Cnot(_) => weights.cnot,
        Kind::Toffoli(_, _) => weights.toffoli,
        Kind::Cccnot(_, _, _) => weights.cccnot,
    }
}

// A price, or a duration, for each gate byte: by the kind of the gate, or from a list of gates.
pub trait Rate: Copy {
    ghost rate: { Self → ℕ → ℕ };

    fn weight(self, b: u8) -> u8
        ensures { result ≡ rate self b };
}

impl Rate for Weights {
    ghost rate = { weight_of };

    #[tactic(auto, unfolding(crate::specs::Measure::weight_of))]
    fn weight(self, b: u8) -> u8 {
        weight_for(self, gate::decode(b).kind)
    }
}

// The cost of a list: the sum of the prices of its gates.
pub fn cost<R: Rate>(gates: &[u8], prices: R) -> u16
    requires { length gates.now ≤ 256 }
    ensures { result ≡ cost (R.rate prices) gates.now }
{
    gates.iter().map(|&b| u16::from(prices.weight(b))).sum()
}
