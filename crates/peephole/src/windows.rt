// Windows of a gate list, when one yields, and what a list becomes: definitions (begin with specs/windows/Windows.antt) and theorems
// (proofs/windows/Promises.antt). The only code is the struct of prices.

// The prices of a NOT, a CNOT and a Toffoli.
#[derive(Clone, Copy)]
pub struct Prices {
    pub not: u8,
    pub cnot: u8,
    pub toffoli: u8,
}
