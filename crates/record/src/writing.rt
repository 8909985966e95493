// A circuit record written into a caller's buffer.
ghost use Rattle.std.specs.Prelude.{◌≡◌, ◌++◌, ◌+◌, ◌≤◌, ◌<◌, length, take, drop};
ghost use Rattle.record.specs.circuit_fields.Circuits.{head_byte, circuit_bytes};

// Byte 0 of a circuit: data wires, ancillas and mark.
fn head_byte(n: usize, m: usize, mark: bool) -> u8
    requires { (n < 8) × (m < 4) }
    ensures { result ≡ head_byte n m mark }
{
    (32 * n + 8 * m + usize::from(mark)) as u8
}

// Writes the record of a circuit of `n` data wires and `m` ancillas whose gates are the first `len` of `path`, from byte 0 of `answer`, and
// returns its length. Later bytes stay as they are.
#[tactic(auto, using(crate::proofs::writing::Copied::written), unfolding(crate::specs::circuit_fields::Circuits::circuit_bytes))]
pub fn write_record(
    n: usize,
    m: usize,
    mark: bool,
    layout: u8,
    path: [u8; 12],
    len: usize,
    answer: &mut [u8],
) -> usize
    requires { ((n < 8) × (m < 4)) × ((len ≤ 12) × (15 ≤ length answer.old)) }
    ensures value { result ≡ 3 + len }
    ensures answer_after { answer.new ≡ circuit_bytes n m mark layout (take len path) ++ drop (3 + len) answer.old }
{
    answer[0] = head_byte(n, m, mark);
    answer[1] = layout;
    answer[2] = len as u8;
    answer[3..3 + len].copy_from_slice(&path[..len]);
    3 + len
}
