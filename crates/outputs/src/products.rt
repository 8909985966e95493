// The products of columns, that is their AND: what a gate with these controls adds to its target.
ghost use Rattle.std.specs.Prelude.{◌≡◌, true, false};
ghost use Rattle.outputs.specs.products.Products.{products_of};

// The products of at most two columns, in the order of their control masks; that of no column is all ones.
pub fn products(columns: [u16; 5]) -> [u16; 16]
    ensures { result ≡ products_of 3 false columns }
{
    let [a, b, c, d, e] = columns;
    [
        65535,
        a,
        b,
        a & b,
        c,
        a & c,
        b & c,
        d,
        a & d,
        b & d,
        c & d,
        e,
        a & e,
        b & e,
        c & e,
        d & e,
    ]
}

// The products of three columns, in the order of their control masks, with 0 for the masks of four and five wires.
pub fn triples(columns: [u16; 5]) -> [u16; 16]
    ensures { result ≡ products_of 3 true columns }
{
    let [a, b, c, d, e] = columns;
    [
        a & b & c,
        a & b & d,
        a & c & d,
        b & c & d,
        0,
        a & b & e,
        a & c & e,
        b & c & e,
        0,
        a & d & e,
        b & d & e,
        0,
        c & d & e,
        0,
        0,
        0,
    ]
}
