// What every other crate stands on. The code: rules as Booleans and the code of the first rule broken, so that a chain of checks is one
// expression without a branch and its proof is a rewrite; reads that give 0 past the end; arrays of five cells by value. The definitions
// in specs/ and the laws in proofs/: rules, lists, bits, answers of a call, words of a text.
#![tactic(auto)]

ghost use Rattle.std.specs.Prelude.{◌≡◌, min, get_or, set};
ghost use Rattle.logic.specs.Rules.{both, either, implies, pick, rule, and_then};

// Whether both rules hold.
pub fn both(a: bool, b: bool) -> bool
    ensures { result ≡ both a b }
{
    if a { b } else { false }
}

// Whether at least one of two rules holds.
pub fn either(a: bool, b: bool) -> bool
    ensures { result ≡ either a b }
{
    if a { true } else { b }
}

// False only where the first rule holds and the second does not.
pub fn implies(a: bool, b: bool) -> bool
    ensures { result ≡ implies a b }
{
    if a { b } else { true }
}

// One rule in front of a list of rules: its code where it is broken, else the code that the rest of the list gives.
pub fn rule(kept: bool, code: u8, rest: u8) -> u8
    ensures { result ≡ rule kept code rest }
{
    if kept { rest } else { code }
}

// Two lists of rules, one after the other: the code of the first list or, where that is 0, of the second.
pub fn and_then(code: u8, rest: u8) -> u8
    ensures { result ≡ and_then code rest }
{
    if code == 0 { rest } else { code }
}

// The byte at index `i`, or 0 past the end.
pub fn at(bytes: &[u8], i: usize) -> u8
    ensures { result ≡ get_or bytes.now i 0 }
{
    if i < bytes.len() { bytes[i] } else { 0 }
}

// The lesser of two numbers.
pub fn lesser(a: usize, b: usize) -> usize
    ensures { result ≡ min a b }
{
    if a < b { a } else { b }
}

// A byte widened to `usize`.
pub fn wide(x: u8) -> usize
    ensures { result ≡ x }
{
    x as usize
}

// Cell `i`, or 0 past the end.
pub fn cell<const N: usize>(cells: [u16; N], i: usize) -> u16
    ensures { result ≡ get_or cells.entry i 0 }
{
    if i < N { cells[i] } else { 0 }
}

// `x` where `first` is true, else `y`.
pub fn picked<T: Copy>(first: bool, x: T, y: T) -> T
    ensures { result ≡ pick first x y }
{
    if first { x } else { y }
}

// The five cells with `x` in cell `i`, or unchanged where `i` is past the end. Each cell is selected by a comparison, for speed: after a
// store at an index known only at run time, a copy of the whole array has to wait for the store.
pub fn with_cell(cells: [u16; 5], i: usize, x: u16) -> [u16; 5]
    ensures { result ≡ set cells i x }
{
    [
        picked(i == 0, x, cells[0]),
        picked(i == 1, x, cells[1]),
        picked(i == 2, x, cells[2]),
        picked(i == 3, x, cells[3]),
        picked(i == 4, x, cells[4]),
    ]
}
