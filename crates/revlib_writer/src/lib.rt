// Writes a circuit record as RevLib `.real` text. This root has the public call `write_real`.
// - `gates`: the gate lines and `.end`, measured and written.
// - `heading`: the lines before them, measured and written.
#![tactic(auto)]

pub mod gates;
pub mod heading;

ghost use Rattle.std.specs.Prelude.{◌≡◌, ◌≤◌, length};
ghost use Rattle.record.specs.Answers.{code_of};
ghost use Rattle.record.specs.circuit_rules.CircuitRules.{circuit_code};
ghost use Rattle.text.specs.pieces.Writing.{Wrote};
ghost use Rattle.revlib.specs.Writing.{text_of, text_code, write_of, length_of, filled};
ghost use Rattle.revlib_writer.specs.Replies.{written_reply, length_in};
ghost use Rattle.revlib_writer.specs.declared.WriteError.TheVariants.{Refused};

use record::refusal::Refusal;
use record::{circuit_fields, job_fields, refusal};
use table::layouts;

// Why no text was written: a rule is broken, or the buffer is shorter than the text, whose length is given.
#[derive(Clone, Copy, Debug, PartialEq, Eq)]
pub enum WriteError {
    Refused(Refusal),
    Short(usize),
}

impl From<Refusal> for WriteError {
    ghost from_gives = { λ r e. e ≡ Refused r };

    fn from(r: Refusal) -> WriteError {
        WriteError::Refused(r)
    }
}

// Whether a circuit has a text, which can say neither a mark nor a layout.
#[tactic(auto, using(record::proofs::Refusals::refusals), unfolding(revlib::specs::Writing::text_code))]
fn check_text(circuit: &[u8]) -> Result<(), Refusal>
    ensures { code_of result ≡ text_code circuit.now }
{
    record::check_circuit(circuit)?;
    refusal::kept(!circuit_fields::marked(circuit), Refusal::CircuitHead)?;
    let plain = layouts::plain(job_fields::data_wires(circuit));
    refusal::kept(
        circuit_fields::layout_of(circuit) == plain,
        Refusal::LayoutNotAllowed,
    )
}

// The length of the text of a sound circuit.
#[tactic(auto, using(record::proofs::circuit_rules::Sound::sound_circuit, crate::proofs::Texts::text_length))]
fn text_size(circuit: &[u8]) -> usize
    requires { circuit_code circuit.now ≡ 0 }
    ensures { result ≡ length (text_of circuit.now) }
{
    let n = job_fields::data_wires(circuit);
    let m = job_fields::ancillas(circuit);
    heading::heading_size(n, m) + gates::body_size(circuit_fields::gate_list(circuit))
}

// Writes the text of a circuit that has one from byte 0 of a buffer that has room for it.
#[tactic(auto, using(crate::proofs::Texts::written))]
fn put_real(circuit: &[u8], out: &mut [u8]) -> usize
    requires circuit_value { text_code circuit.now ≡ 0 }
    requires circuit_in_bounds { length (text_of circuit.now) ≤ length out.old }
    ensures { Wrote out.old 0 (text_of circuit.now) out.new result }
{
    let n = job_fields::data_wires(circuit);
    let m = job_fields::ancillas(circuit);
    let i = heading::put_heading(out, n, m);
    gates::put_body(out, i, circuit_fields::gate_list(circuit))
}

// Writes the `.real` text of an unmarked circuit record with plain layout to `out`, and returns its length.
#[tactic(auto, using(crate::proofs::Texts::texts), unfolding(revlib::specs::Writing::write_of))]
pub fn write_real(circuit: &[u8], out: &mut [u8]) -> Result<usize, WriteError>
    ensures result_value { written_reply result ≡ length_of (write_of circuit.now (length out.old)) }
    ensures result_bound { length_in result ≤ 193 }
    ensures out_after { out.new ≡ filled (write_of circuit.now (length out.old)) out.old }
{
    check_text(circuit)?;
    let needed = text_size(circuit);
    if out.len() < needed {
        return Err(WriteError::Short(needed));
    }
    Ok(put_real(circuit, out))
}
