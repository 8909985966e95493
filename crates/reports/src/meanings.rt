// The sentence of every refusal number. A function that does not know a number asks the next one: first come the numbers of a job, then
// those of a circuit, of verifying, and, in `sentences`, of the other calls.
ghost use Rattle.std.specs.Prelude.{◌+◌, ◌≤◌, length};
ghost use Rattle.text.specs.pieces.Writing.{Wrote};
ghost use Rattle.reports.specs.sentences.Meanings.{verify_meaning, circuit_meaning, meaning};

use crate::sentences;
use text::pieces::put_text;

// Writes the sentence of a number of verifying, or of a later group.
fn put_verify_meaning(out: &mut [u8], i: usize, code: u8) -> usize
    requires { i + 64 ≤ length out.old }
    ensures { Wrote out.old i (verify_meaning code) out.new result }
{
    match code {
        12 => put_text(out, i, b"the circuit's wires are not those of the job"),
        28 => put_text(
            out,
            i,
            b"the circuit is marked for three controls and the job is not",
        ),
        15 => put_text(out, i, b"the job allows the plain layout only"),
        16 => put_text(out, i, b"the circuit does not realize the table"),
        24 => put_text(out, i, b"the ancilla does not end at 0 in every row"),
        17 => put_text(out, i, b"the circuit has more gates than the gate limit"),
        18 => put_text(out, i, b"the circuit costs more than the cost limit"),
        19 => put_text(out, i, b"the circuit is deeper than the depth limit"),
        _ => sentences::put_library_meaning(out, i, code),
    }
}

// Writes the sentence of a number of a circuit, or of a later group.
fn put_circuit_meaning(out: &mut [u8], i: usize, code: u8) -> usize
    requires { i + 64 ≤ length out.old }
    ensures { Wrote out.old i (circuit_meaning code) out.new result }
{
    match code {
        7 => put_text(out, i, b"the circuit is not 3 to 15 bytes long"),
        8 => put_text(out, i, b"the circuit's wires or spare bits are not lawful"),
        9 => put_text(out, i, b"the layout does not name each data wire once"),
        10 => put_text(out, i, b"the gate count is not the number of gate bytes"),
        21 => put_text(out, i, b"a gate is not lawful for the circuit's wires"),
        _ => put_verify_meaning(out, i, code),
    }
}

// Writes the sentence of any number, without a line feed.
pub fn put_meaning(out: &mut [u8], i: usize, code: u8) -> usize
    requires { i + 64 ≤ length out.old }
    ensures { Wrote out.old i (meaning code) out.new result }
{
    match code {
        1 => put_text(out, i, b"the job is not 20, 22, 28 or 30 bytes long"),
        2 => put_text(out, i, b"the job's length does not fit its data wires"),
        3 => put_text(out, i, b"the job's ancillas or spare bits are not lawful"),
        4 => put_text(out, i, b"the gate limit is above 12"),
        5 => put_text(out, i, b"a duration is 0"),
        6 => put_text(out, i, b"a row has a 1 outside its care mask or outputs"),
        _ => put_circuit_meaning(out, i, code),
    }
}
