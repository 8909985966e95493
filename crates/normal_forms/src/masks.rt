// Which gates need not come next, kept along a gate list in ten words. Gate b is bit b % 32 of word b / 32: a word holds the gates of one
// target, a bit for each control mask. The masks that contain a given wire are a fixed pattern of bits, so a step needs no table and no
// loop.
ghost use Rattle.std.specs.Prelude.{◌≡◌, ◌<◌};
ghost use Rattle.gate.specs.Gates.{target_of};
ghost use Rattle.normal_forms.specs.masks.Words.{no_masks, stepped};

use crate::words;

// `sleep`: the gates that could have stood earlier (N3). `cancel`: the gates that would undo an earlier one (N2).
#[derive(Clone, Copy)]
pub struct Masks {
    pub sleep: [u32; 5],
    pub cancel: [u32; 5],
}

// No gate is marked before the first one.
pub fn start() -> Masks
    ensures { result ≡ no_masks }
{
    Masks {
        sleep: [0; 5],
        cancel: [0; 5],
    }
}

// The marks after one more gate.
pub fn step(g: u8, marks: Masks) -> Masks
    requires { target_of g < 5 }
    ensures { result ≡ stepped g marks }
{
    let t = usize::from(g) / 32;
    let m = usize::from(g) % 32;
    let wires = m | (1 << t);
    let apart = words::clear(wires);
    let free = words::clear(1 << t);
    Masks {
        sleep: std::array::from_fn(|u| words::sleep_word(wires, apart, t, u, marks.sleep[u])),
        cancel: std::array::from_fn(|u| words::cancel_word(m, free, t, u, marks.cancel[u])),
    }
}
