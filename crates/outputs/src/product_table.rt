// The product table of a node: the products of all control masks, worked out once and lent to the test of every gate.
ghost use Rattle.std.specs.Prelude.{◌≡◌, true};
ghost use Rattle.columns.specs.declared.Wanted.{Wanted};
ghost use Rattle.outputs.specs.Owed.{Controls};
ghost use Rattle.outputs.specs.products.Products.{products_of, table_of};

use crate::products;
use columns::Wanted;

// The products of the masks of three or more wires; all 0 if gates have at most two controls.
fn wider(controls: usize, columns: [u16; 5]) -> [u16; 16]
    requires { Controls controls }
    ensures { result ≡ products_of controls true columns }
{
    if controls == 3 {
        products::triples(columns)
    } else {
        [0; 16]
    }
}

// The product of each control mask that a gate may have, with the mask as index, and 0 for any other mask; from index 32 on the wanted
// values, and from 36 on the care columns.
pub fn table_of(controls: usize, t: Wanted, columns: [u16; 5]) -> [u16; 40]
    requires { Controls controls }
    ensures { result ≡ table_of controls t columns }
{
    let ps = products::products(columns);
    let qs = wider(controls, columns);
    let value = t.value;
    let care = t.care;
    [
        ps[0], ps[1], ps[2], ps[3], ps[4], ps[5], ps[6], qs[0], ps[7], ps[8], ps[9], qs[1], ps[10],
        qs[2], qs[3], 0, ps[11], ps[12], ps[13], qs[5], ps[14], qs[6], qs[7], 0, ps[15], qs[9],
        qs[10], 0, qs[12], 0, 0, 0, value[0], value[1], value[2], value[3], care[0], care[1],
        care[2], care[3],
    ]
}
