// Gates under another order of the wires. A layout renames wires, and so turns a gate into another: `h` mirrors `g` if `h` with its wires
// renamed is `g`. Whether every gate of a list has its mirror in the list is tested, not assumed.
ghost use Rattle.std.specs.Prelude.{◌≡◌, true, ℕ, ◌+◌, ◌<◌, length, get_or};
ghost use mathlib.Core.List.{Memᴰ};
ghost use Rattle.gate.specs.Gates.{target_of, lawful};
ghost use Rattle.table.specs.layouts.Layouts.{Width};
ghost use Rattle.reach_filter.specs.mirrors.Mirrors.{wire_at, same_control, mirrors};

// The wire that layout `p` has in place of wire `w` of the plain layout; a wire without an output keeps its number.
#[tactic(auto, unfolding(crate::specs::mirrors::Mirrors::wire_at))]
pub fn wire_at(n: usize, p: u8, w: usize) -> usize
    requires { Width n × (w < 5) }
    ensures value { result ≡ wire_at n p w }
    ensures upper_bound { result < 5 }
{
    if w < n {
        (usize::from(p) >> (6 - 2 * w)) % 4
    } else {
        w
    }
}

// Whether wire `w` is a control of `h` exactly if the wire that it is renamed to is a control of `g`.
fn same_control(n: usize, p: u8, g: u8, h: u8, w: usize) -> bool
    requires { Width n × (w < 5) }
    ensures { result ≡ same_control n p g h w }
{
    let v = wire_at(n, p, w);
    ((usize::from(h) % 32) >> w) % 2 == ((usize::from(g) % 32) >> v) % 2
}

// Whether `h` mirrors `g` under layout `p`: `h` with its target and controls renamed by the layout is `g`. Running `h` and then moving the
// wires is the same as moving the wires and then running `g`.
fn mirrors(n: usize, p: u8, g: u8, h: u8) -> bool
    requires { Width n × (target_of h < 5) }
    ensures { result ≡ mirrors n p g h }
{
    wire_at(n, p, usize::from(h) / 32) == usize::from(g) / 32
        && (0..5).all(|w| same_control(n, p, g, h, w))
}

// Whether every gate is lawful on the data wires and the ancilla.
pub fn all_lawful(gates: &[u8], n: usize) -> bool
    requires { Width n }
    ensures { result ≡ true → (i : ℕ) → i < length gates.now → lawful 3 (n + 1) (get_or gates.now i 0) ≡ true }
{
    gate::all_lawful(3, n + 1, gates)
}

// Whether some gate of the list mirrors `g`.
fn has_mirror(gates: &[u8], n: usize, p: u8, g: u8) -> bool
    requires width { Width n }
    requires by_index { (i : ℕ) → i < length gates.now → lawful 3 (n + 1) (get_or gates.now i 0) ≡ true }
    ensures { result ≡ true → (h : ℕ) × (Memᴰ h gates.now × (mirrors n p g h ≡ true)) }
{
    gates.iter().any(|&h| mirrors(n, p, g, h))
}

// Whether the list is closed under layout `p`: every gate has a mirror in it.
pub fn all_mirrored(gates: &[u8], n: usize, p: u8) -> bool
    requires width { Width n }
    requires by_index { (i : ℕ) → i < length gates.now → lawful 3 (n + 1) (get_or gates.now i 0) ≡ true }
    ensures { result ≡ true → (i : ℕ) → i < length gates.now
        → (h : ℕ) × (Memᴰ h gates.now × (mirrors n p (get_or gates.now i 0) h ≡ true)) }
{
    gates.iter().all(|&g| has_mirror(gates, n, p, g))
}
