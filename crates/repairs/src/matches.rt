// Whether some product of columns is just what an output lacks on a wire: the AND of the controls that a gate would XOR into it.
ghost use Rattle.std.specs.Prelude.{◌≡◌, ◌<◌};
ghost use Rattle.logic.specs.Rules.{bit};
ghost use Rattle.repairs.specs.matches.Inner.{others_of, hit_bit, hits_of, lack_of, wire_hits};

use columns::Wanted;

// What a wire lacks of an output: a product that is `rows` in the rows that care. Bit i of `allowed` says whether product i will do.
#[derive(Clone, Copy)]
pub struct Lack {
    pub allowed: u16,
    pub care: u16,
    pub rows: u16,
}

// The products that a gate on wire `w` may add, a bit each: those without wire `w`, of three columns if `wide`, else of at most two.
pub fn others(wide: bool, w: usize) -> u16
    requires { w < 5 }
    ensures { result ≡ others_of wide w }
{
    match w {
        0 => logic::picked(wide, 0x1488, 0xEED5),
        1 => logic::picked(wide, 0x1244, 0xDDB3),
        2 => logic::picked(wide, 0x0622, 0xBB8F),
        3 => logic::picked(wide, 0x00E1, 0x787F),
        _ => logic::picked(wide, 0x000F, 0x07FF),
    }
}

// 1 if product `i`, which is `p`, is allowed and is what is lacking, else 0.
fn hit(i: usize, p: u16, l: Lack) -> u16
    requires { i < 16 }
    ensures { result ≡ bit (hit_bit i p l) }
{
    u16::from((l.allowed >> i) % 2 == 1) & u16::from(p & l.care == l.rows)
}

// 1 if some product is what one of four outputs lacks, else 0. The loop has no early exit, so that all products are compared at once.
pub fn hits(ps: [u16; 16], a: Lack, b: Lack, c: Lack, d: Lack) -> u16
    ensures { result ≡ bit (hits_of ps a b c d) }
{
    let mut any = 0;
    for (i, &p) in ps.iter().enumerate() {
        any = (hit(i, p, d) | (hit(i, p, c) | (hit(i, p, b) | hit(i, p, a)))) | any;
    }
    any
}

// What is lacking of an output that is missed in these rows. If there are none, nothing is to be mended, and no product is allowed.
pub fn lack_of(allowed: u16, care: u16, rows: u16) -> Lack
    ensures { result ≡ lack_of allowed care rows }
{
    Lack {
        allowed: logic::picked(rows == 0, 0, allowed),
        care,
        rows,
    }
}

// 1 if some product mends an output on wire `w`, else 0.
#[tactic(auto, unfolding(crate::specs::matches::Inner::wire_hits))]
pub fn wire_hits(wide: bool, t: Wanted, columns: [u16; 5], ps: [u16; 16], n: usize, w: usize) -> u16
    requires { w < 4 }
    ensures { result ≡ bit (wire_hits wide ps t columns n w) }
{
    let care = t.care;
    let column = columns[w];
    let k = others(wide, w);
    let last = logic::picked(n == 4, columns::misses(t, column, 3), 0);
    hits(
        ps,
        lack_of(k, care[0], columns::misses(t, column, 0)),
        lack_of(k, care[1], columns::misses(t, column, 1)),
        lack_of(k, care[2], columns::misses(t, column, 2)),
        lack_of(k, care[3], last),
    )
}
