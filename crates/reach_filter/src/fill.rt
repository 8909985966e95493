// Filling: every state within some gates of the wanted columns is put into a Bloom filter. A gate undoes itself, so these are the states
// from which so many gates finish. A state that is not in the filter cannot be finished; a collision only means that less is pruned.
ghost use Rattle.std.specs.Prelude.{◌≡◌, ◌<◌, length, get_or, ltb};
ghost use Rattle.logic.specs.Rules.{pick};
ghost use Rattle.gate.specs.Gates.{gate_of};
ghost use Rattle.gate.specs.Inner.{firing, column_step};
ghost use Rattle.bloom.specs.hash.Reach.{Seen, SeenWithout};
ghost use Rattle.bloom.specs.bits.Places.{Grown};
ghost use Rattle.reach_filter.specs.fill.Sieve.{Near, aim_of};

use bloom::hash::Reach;
use bloom::insert;
use columns::Wanted;
use gate::Kind;

// The rows in which a gate fires: its controls are all 1.
fn firing(columns: [u16; 5], kind: Kind) -> u16
    ensures { result ≡ firing kind columns }
{
    match kind {
        Kind::Not => 65535,
        Kind::Cnot(a) => logic::cell(columns, a),
        Kind::Toffoli(a, b) => logic::cell(columns, a) & logic::cell(columns, b),
        Kind::Cccnot(a, b, c) => {
            logic::cell(columns, a) & logic::cell(columns, b) & logic::cell(columns, c)
        }
    }
}

// All columns after a gate.
#[tactic(auto, unfolding(gate::specs::Inner::column_step))]
fn step(columns: [u16; 5], g: u8) -> [u16; 5]
    ensures { result ≡ column_step (gate_of g) columns }
{
    let gate = gate::decode(g);
    let t = gate.target;
    let fires = firing(columns, gate.kind);
    logic::with_cell(columns, t, logic::cell(columns, t) ^ fires)
}

// Puts in every state within `k` gates of these columns. No state is skipped because it seems to be in already: that may be a collision, or
// the state was put in with fewer gates to go. `but` is the target of the last gate: the projections that leave it out are in already.
pub fn fill(gates: &[u8], reach: Reach, columns: [u16; 5], but: usize, k: usize, bits: &mut [u64])
    requires { SeenWithout but bits.old reach columns }
    ensures bits_len_unchanged { length bits.new ≡ length bits.old }
    ensures grown { Grown bits.old bits.new }
    ensures near { Near (Seen bits.new reach) gates.now columns k }
{
    insert::note(reach, columns, but, bits);
    if k == 0 {
        return;
    }
    for &g in gates {
        let next = step(columns, g);
        fill(gates, reach, next, usize::from(g) / 32, k - 1, bits);
    }
}

// What is wanted of wire `w` under the plain layout: its output, or 0 if it has none.
fn aim_at(value: [u16; 4], n: usize, w: usize) -> u16
    ensures { result ≡ pick (ltb w n) (get_or value w 0) 0 }
{
    if w < n && w < 4 { value[w] } else { 0 }
}

// The columns that are wanted under the plain layout.
pub fn aim_of(t: Wanted, n: usize) -> [u16; 5]
    ensures { result ≡ aim_of t n }
{
    std::array::from_fn(|w| aim_at(t.value, n, w))
}
