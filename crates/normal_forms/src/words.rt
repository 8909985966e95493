// The gates of one target as a word, a bit for each control mask: which masks avoid given wires, and which gates are marked after one more
// gate.
ghost use Rattle.std.specs.Prelude.{◌≡◌, ◌<◌, eqb};
ghost use Rattle.logic.specs.Rules.{pick};
ghost use Rattle.logic.specs.Bit.{bit_of};
ghost use Rattle.normal_forms.specs.words.Words.{every, clear_of, sleep_word, cancel_word};

// `pattern` if wire `w` is in the set, all masks if it is not.
fn where_set(wires: usize, w: usize, pattern: u32) -> u32
    requires { w < 64 }
    ensures { result ≡ pick (eqb (bit_of w wires) 1) pattern every }
{
    logic::picked((wires >> w) % 2 == 1, pattern, 0xFFFFFFFF)
}

// The control masks that contain no wire of the set.
#[tactic(auto, unfolding(crate::specs::words::Words::clear_of))]
pub fn clear(wires: usize) -> u32
    ensures { result ≡ clear_of wires }
{
    where_set(wires, 0, 0x55555555)
        & (where_set(wires, 1, 0x33333333)
            & (where_set(wires, 2, 0x0F0F0F0F)
                & (where_set(wires, 3, 0x00FF00FF) & where_set(wires, 4, 0x0000FFFF))))
}

// The gates of target `u` that could have stood earlier (N3), after a gate of target `t` with these wires; `apart` are the masks that
// contain none of them. A gate that shares a wire with it stays behind it. One that shares none could stand before it if its byte is less,
// which is so if `u < t`, or else before a gate that it could already pass.
#[tactic(auto, unfolding(crate::specs::words::Words::sleep_word))]
pub fn sleep_word(wires: usize, apart: u32, t: usize, u: usize, old: u32) -> u32
    requires { u < 64 }
    ensures { result ≡ sleep_word wires apart t u old }
{
    logic::picked(
        (wires >> u) % 2 == 1,
        0,
        apart & logic::picked(u < t, 0xFFFFFFFF, old),
    )
}

// The gates of target `u` that would undo an earlier one (N2), after a gate with controls `m` and target `t`; `free` are the masks without
// wire `t`. These are that gate itself, and of the gates marked before it those that commute with it.
#[tactic(auto, unfolding(crate::specs::words::Words::cancel_word))]
pub fn cancel_word(m: usize, free: u32, t: usize, u: usize, old: u32) -> u32
    requires { (u < 64) × (m < 32) }
    ensures { result ≡ cancel_word m free t u old }
{
    logic::picked((m >> u) % 2 == 1, 0, free & old) | logic::picked(u == t, 1 << m, 0)
}
