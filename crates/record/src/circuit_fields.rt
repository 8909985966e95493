// The fields of a circuit record; `job_fields` has its data wires and ancillas, which stand in byte 0 of either record.
ghost use Rattle.std.specs.Prelude.{◌≡◌, ◌<◌};
ghost use Rattle.record.specs.circuit_fields.Circuits.{marked, controls_of, layout_of, count_byte, gates};

// The gate bytes of a circuit.
pub fn gate_list(c: &[u8]) -> &[u8]
    ensures { result.now ≡ gates c.now }
{
    c.get(3..).unwrap_or(&[])
}

// Whether a circuit is marked: it answers a longer job and may hold gates of three controls.
#[tactic(auto, unfolding(crate::specs::circuit_fields::Circuits::marked))]
pub fn marked(c: &[u8]) -> bool
    ensures { result ≡ marked c.now }
{
    logic::at(c, 0) % 2 == 1
}

// The greatest number of controls that the circuit's gates may have.
pub fn controls_of(c: &[u8]) -> u32
    ensures { result ≡ controls_of c.now }
{
    if marked(c) { 3 } else { 2 }
}

// The final layout.
#[tactic(auto, unfolding(crate::specs::circuit_fields::Circuits::layout_of))]
pub fn layout_of(c: &[u8]) -> u8
    ensures { result ≡ layout_of c.now }
{
    logic::at(c, 1)
}

// The gate count that byte 2 states.
#[tactic(auto, unfolding(crate::specs::circuit_fields::Circuits::count_byte))]
pub fn count_of(c: &[u8]) -> usize
    ensures { result ≡ count_byte c.now }
{
    usize::from(logic::at(c, 2))
}
