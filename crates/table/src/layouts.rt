// Final layouts (document 01: placings): one byte that says which wire each output ends on. Which bytes are in order, which layouts a job
// allows, and the constant tables of them. The width is a number with the clause `Width`, and no type: these public calls take it so.
ghost use Rattle.std.specs.Prelude.{◌≡◌, length, get_or};
ghost use Rattle.table.specs.layouts.Layouts.{Width, layout_ok, layouts_for, allowed, plain};

// The layouts of three and of four outputs, in rising order.
const LAYOUTS3: [u8; 6] = [0x18, 0x24, 0x48, 0x60, 0x84, 0x90];

const LAYOUTS4: [u8; 24] = [
    0x1B, 0x1E, 0x27, 0x2D, 0x36, 0x39, 0x4B, 0x4E, 0x63, 0x6C, 0x72, 0x78, 0x87, 0x8D, 0x93, 0x9C,
    0xB1, 0xB4, 0xC6, 0xC9, 0xD2, 0xD8, 0xE1, 0xE4,
];

// Whether the layout puts each output on a data wire of its own: its `n` fields name all `n` data wires, and so each of them once.
pub fn layout_ok(n: usize, p: u8) -> bool
    requires { Width n }
    ensures { result ≡ layout_ok n p }
{
    let named = (1u8 << (p / 64)) | (1u8 << (p / 16 % 4)) | (1u8 << (p / 4 % 4));
    let three = named == 7;
    if n == 3 {
        three && p % 4 == 0
    } else {
        named | (1u8 << (p % 4)) == 15
    }
}

// The allowed layouts, in rising byte order. Where `free` is 1, all layouts in order are allowed; else only the plain one is.
fn listed(n: usize, free: usize) -> &'static [u8]
    requires { Width n }
    ensures { result.now ≡ layouts_for n free }
{
    match (n, free) {
        (3, 1) => &LAYOUTS3,
        (_, 1) => &LAYOUTS4,
        (3, _) => &[0x18],
        _ => &[0x1B],
    }
}

// The number of allowed layouts.
pub fn layout_count(n: usize, free: usize) -> usize
    requires { Width n }
    ensures { result ≡ length (layouts_for n free) }
{
    listed(n, free).len()
}

// Allowed layout `i`, in rising byte order, or 0 past the last.
pub fn layout_at(n: usize, free: usize, i: usize) -> u8
    requires { Width n }
    ensures { result ≡ get_or (layouts_for n free) i 0 }
{
    logic::at(listed(n, free), i)
}

// Whether a layout is allowed: where `free` is 1, any layout in order; else only the plain one.
#[tactic(auto, unfolding(crate::specs::layouts::Layouts::allowed))]
pub fn allowed(n: usize, free: usize, p: u8) -> bool
    requires { Width n }
    ensures { result ≡ allowed n free p }
{
    if free == 1 {
        layout_ok(n, p)
    } else {
        p == plain(n)
    }
}

// The plain layout: output j on wire j.
pub fn plain(n: usize) -> u8
    ensures { result ≡ plain n }
{
    if n == 3 { 0x18 } else { 0x1B }
}
