// Gates. A gate is one byte: the target wire in its high three bits, the mask of control wires in its low five. This root tests whether a
// byte is lawful and decodes it into target and kind.
// - `gate_tables`: the constant tables of lawful gates.
// - `step`: one gate applied to a value of the wires.
#![tactic(auto)]

pub mod gate_tables;
pub mod step;

ghost use Rattle.std.specs.Prelude.{◌≡◌, ◌≤◌, ◌<◌};
ghost use Rattle.gate.specs.Gates.{lawful, lowest, middle, highest, kind_for, gate_of};
ghost use Rattle.std.specs.Int.Count.{ones};
ghost use Rattle.logic.specs.Lists.{all_of};

// The kind of a gate, by its number of controls. Each case carries the control wires, lowest first.
#[derive(Clone, Copy)]
pub enum Kind {
    Not,
    Cnot(usize),
    Toffoli(usize, usize),
    Cccnot(usize, usize, usize),
}

// A decoded gate.
#[derive(Clone, Copy)]
pub struct Gate {
    pub target: usize,
    pub kind: Kind,
}

// Whether the byte is a lawful gate on `w` wires with at most `k` controls.
#[tactic(auto, unfolding(crate::specs::Gates::lawful))]
pub fn lawful(k: u32, w: usize, b: u8) -> bool
    requires { w < 64 }
    ensures { result ≡ lawful k w b }
{
    let t = usize::from(b / 32);
    let m = b % 32;
    t < w && usize::from(m) < 1 << w && (m >> t) % 2 == 0 && m.count_ones() <= k
}

// Whether every byte of a list is a lawful gate on `w` wires with at most `k` controls.
pub fn all_lawful(k: u32, w: usize, list: &[u8]) -> bool
    requires { w < 64 }
    ensures { result ≡ all_of (lawful k w) list.now }
{
    list.iter().all(|&b| lawful(k, w, b))
}

// The lowest wire of a mask, or 8 if the mask is empty.
pub fn lowest(m: u8) -> usize
    ensures value { result ≡ lowest m }
    ensures upper_bound { result ≤ 8 }
{
    m.trailing_zeros() as usize
}

// The second lowest wire of a mask, which of three is the middle one; 8 if there is none.
pub fn middle(m: u8) -> usize
    ensures value { result ≡ middle m }
    ensures upper_bound { result ≤ 8 }
{
    if m == 0 { 8 } else { lowest(m & (m - 1)) }
}

// The highest wire of a mask, or 0 if the mask is empty.
pub fn highest(m: u8) -> usize
    ensures { result ≡ highest m }
{
    let z = m.leading_zeros() as usize;
    if z < 8 { 7 - z } else { 0 }
}

// The kind of a gate with the control mask `m`.
fn kind_of(m: u8) -> Kind
    ensures { result ≡ kind_for (ones m) m }
{
    match m.count_ones() {
        0 => Kind::Not,
        1 => Kind::Cnot(lowest(m)),
        2 => Kind::Toffoli(lowest(m), highest(m)),
        _ => Kind::Cccnot(lowest(m), middle(m), highest(m)),
    }
}

// The gate that a byte encodes.
#[tactic(auto, unfolding(crate::specs::Gates::gate_of))]
pub fn decode(b: u8) -> Gate
    ensures { result ≡ gate_of b }
{
    Gate {
        target: usize::from(b) / 32,
        kind: kind_of(b % 32),
    }
}
