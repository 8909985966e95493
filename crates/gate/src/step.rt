// One gate applied to a value of the wires: bit i of the value is wire i.
ghost use Rattle.std.specs.Prelude.{◌≡◌, ◌*◌, ◌^◌, ◌<◌};
ghost use Rattle.std.specs.Int.Bits.{bit_xor};
ghost use Rattle.logic.specs.Rules.{pick};
ghost use Rattle.logic.specs.Bit.{bit_of};
ghost use Rattle.gate.specs.Gates.{fires, step};

// Bit `i` of a value.
fn bit(v: usize, i: usize) -> usize
    requires { i < 64 }
    ensures value { result ≡ bit_of i v }
    ensures upper_bound { result < 2 }
{
    (v >> i) % 2
}

// The product of two bits.
fn product(x: usize, y: usize) -> usize
    requires { (x < 2) × (y < 2) }
    ensures value { result ≡ x * y }
    ensures upper_bound { result < 2 }
{
    x * y
}

// The value with the bit `x` exclusive-ored into wire `t`.
fn add(v: usize, t: usize, x: usize) -> usize
    requires { (t < 64) × (x < 2) }
    ensures { result ≡ bit_xor v (x * 2 ^ t) }
{
    v ^ (x << t)
}

// The value with wire `t` flipped if every wire of the mask `m` is 1, for any number of controls.
fn by_mask(v: usize, t: usize, m: usize) -> usize
    requires { t < 8 }
    ensures { result ≡ pick (fires m v) (bit_xor v (2 ^ t)) v }
{
    if m & v == m { v ^ (1 << t) } else { v }
}

// The value after one gate, by the published formula of its kind: the target is exclusive-ored with 1, with the control, or with the
// product of two or three controls. The last arm is for bytes of four or five controls; none of them is lawful.
#[tactic(auto, using(crate::proofs::Published::by_kind), unfolding(crate::specs::Gates::step))]
pub fn step(b: u8, v: usize) -> usize
    ensures { result ≡ step b v }
{
    let t = usize::from(b) / 32;
    let m = b % 32;
    match m.count_ones() {
        0 => add(v, t, 1),
        1 => {
            let a = crate::lowest(m);
            add(v, t, bit(v, a))
        }
        2 => {
            let a = crate::lowest(m);
            let c = crate::highest(m);
            add(v, t, product(bit(v, a), bit(v, c)))
        }
        3 => {
            let a = crate::lowest(m);
            let c = crate::middle(m);
            let d = crate::highest(m);
            add(v, t, product(product(bit(v, a), bit(v, c)), bit(v, d)))
        }
        _ => by_mask(v, t, usize::from(m)),
    }
}
