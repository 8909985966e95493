// Whether a gate is marked as one that need not come next.
ghost use Rattle.std.specs.Prelude.{◌≡◌, ◌<◌};
ghost use Rattle.gate.specs.Gates.{target_of};
ghost use Rattle.normal_forms.specs.masks.Words.{marked};

use crate::masks::Masks;

// Whether gate `g` is marked. Its word is picked by comparisons and not by an index, so that the compiler can keep the words in registers.
pub fn marked(marks: Masks, g: u8) -> bool
    requires { target_of g < 5 }
    ensures { result ≡ marked marks g }
{
    let t = usize::from(g) / 32;
    let sleep = marks.sleep;
    let cancel = marks.cancel;
    let last = logic::picked(t == 3, sleep[3] | cancel[3], sleep[4] | cancel[4]);
    let later = logic::picked(t == 2, sleep[2] | cancel[2], last);
    let word = logic::picked(
        t == 0,
        sleep[0] | cancel[0],
        logic::picked(t == 1, sleep[1] | cancel[1], later),
    );
    (word >> (g % 32)) % 2 == 1
}
