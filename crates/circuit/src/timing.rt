// Ready times: for each of five wires, the time from which it is free (document 01: its free time). The latest is the depth.
ghost use Rattle.std.specs.Prelude.{◌≡◌, ℕ, ◌≤◌, ◌+◌, max, length, get_or};
ghost use Rattle.circuit.specs.Measure.{controls_ready, hold_controls, hold, ready_times, greatest};

use crate::Rate;
use gate::{Gate, Kind};

// The time from which all controls of a gate are free.
fn controls_ready(kind: Kind, times: [u16; 5]) -> u16
    ensures { result ≡ controls_ready kind times }
{
    match kind {
        Kind::Not => 0,
        Kind::Cnot(a) => logic::cell(times, a),
        Kind::Toffoli(a, b) => logic::cell(times, a).max(logic::cell(times, b)),
        Kind::Cccnot(a, b, c) => logic::cell(times, a)
            .max(logic::cell(times, b))
            .max(logic::cell(times, c)),
    }
}

// The ready times with the controls of a gate held until `end`.
fn hold_controls(kind: Kind, end: u16, times: [u16; 5]) -> [u16; 5]
    ensures { result ≡ hold_controls kind end times }
{
    match kind {
        Kind::Not => times,
        Kind::Cnot(a) => logic::with_cell(times, a, end),
        Kind::Toffoli(a, b) => logic::with_cell(logic::with_cell(times, a, end), b, end),
        Kind::Cccnot(a, b, c) => logic::with_cell(
            logic::with_cell(logic::with_cell(times, a, end), b, end),
            c,
            end,
        ),
    }
}

// The ready times after one more gate: it starts when all its wires are free, and holds them for its duration.
#[tactic(auto, unfolding(crate::specs::Measure::hold))]
pub fn hold(g: Gate, duration: u8, times: [u16; 5]) -> [u16; 5]
    requires { (w : ℕ) → get_or times w 0 ≤ 65280 }
    ensures { result ≡ hold g duration times }
{
    let t = g.target;
    let kind = g.kind;
    let begin = logic::cell(times, t).max(controls_ready(kind, times));
    let end = begin + u16::from(duration);
    logic::with_cell(hold_controls(kind, end, times), t, end)
}

// The ready times of the five wires after the list.
pub fn ready_times<R: Rate>(gates: &[u8], durations: R) -> [u16; 5]
    requires { length gates.now ≤ 256 }
    ensures { result ≡ ready_times (R.rate durations) gates.now }
{
    let mut times = [0u16; 5];
    // not a fold: `hold` asks for small times, which the times so far are and a closure's argument need not be
    for &b in gates {
        let next = hold(gate::decode(b), durations.weight(b), times); // assigned in two steps: one gets no generated proof
        times = next;
    }
    times
}

// The latest of five ready times: the depth.
#[tactic(auto, unfolding(crate::specs::Measure::greatest))]
pub fn latest(times: [u16; 5]) -> u16
    ensures { result ≡ greatest times }
{
    let [a, b, c, d, e] = times;
    a.max(b.max(c.max(d.max(e))))
}
