// The checks of a circuit record, in document 01's order with its refusals.
ghost use Rattle.std.specs.Prelude.{◌≡◌, ◌≤◌, length};
ghost use Rattle.record.specs.circuit_rules.CircuitRules.{circuit_length_ok, shape_ok, count_ok, gates_ok, circuit_code};
ghost use Rattle.record.specs.Answers.{code_of};

use crate::refusal::Refusal;
use crate::{circuit_fields, job_fields, refusal};
use table::layouts;

// Rule 7: a circuit has 3 to 15 bytes.
#[tactic(auto, unfolding(crate::specs::circuit_rules::CircuitRules::circuit_length_ok))]
fn circuit_length_ok(c: &[u8]) -> bool
    ensures { result ≡ circuit_length_ok c.now }
{
    3 <= c.len() && c.len() <= 15
}

// Rule 8: three or four data wires, at most one ancilla, and zeros in byte 0 but for the mark.
#[tactic(auto, unfolding(crate::specs::circuit_rules::CircuitRules::shape_ok))]
fn shape_ok(c: &[u8]) -> bool
    ensures { result ≡ shape_ok c.now }
{
    let n = job_fields::data_wires(c);
    (n == 3 || n == 4) && job_fields::ancillas(c) <= 1 && logic::at(c, 0) / 2 % 4 == 0
}

// Rule 21: every gate is lawful.
fn gates_ok(c: &[u8]) -> bool
    ensures { result ≡ gates_ok c.now }
{
    gate::all_lawful(
        circuit_fields::controls_of(c),
        job_fields::wires(c),
        circuit_fields::gate_list(c),
    )
}

// Rule 10: the count byte is the length less 3.
fn count_ok(c: &[u8]) -> bool
    requires { 3 ≤ length c.now }
    ensures { result ≡ count_ok c.now }
{
    circuit_fields::count_of(c) == c.len() - 3
}

// Checks a circuit record.
#[tactic(auto, using(crate::proofs::circuit_rules::Sound::first_rules), unfolding(crate::specs::circuit_rules::CircuitRules::circuit_code))]
pub fn check_circuit(c: &[u8]) -> Result<(), Refusal>
    ensures { code_of result ≡ circuit_code c.now }
{
    refusal::kept(circuit_length_ok(c), Refusal::CircuitLength)?;
    refusal::kept(shape_ok(c), Refusal::CircuitHead)?;
    refusal::kept(
        layouts::layout_ok(job_fields::data_wires(c), circuit_fields::layout_of(c)),
        Refusal::Layout,
    )?;
    refusal::kept(count_ok(c), Refusal::GateCount)?;
    refusal::kept(gates_ok(c), Refusal::UnlawfulGate)
}

// The code of the first rule that a circuit breaks, or 0.
pub fn circuit_code(c: &[u8]) -> u8
    ensures { result ≡ circuit_code c.now }
{
    refusal::code(check_circuit(c))
}
