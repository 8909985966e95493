// A search problem and its answer. A problem has gates and layouts to choose from, prices, durations, what is asked for, and limits; its
// answer is the first good choice of a gate list and a layout. specs/ has the definitions and demand 3 over a problem, proofs/ the
// theorems.
#![tactic(auto)]

pub mod best; // the incumbent, and what becomes of it when a circuit is offered
pub mod incumbent; // what a search reads of the incumbent: its cost and length
pub mod order; // the order of choices, and the list of all of them
pub mod pruned; // the choices that are left where gates are skipped, and why the answer is among them

// A gate with its price and duration.
#[derive(Clone, Copy)]
pub struct Entry {
    pub gate: u8,
    pub price: u8,
    pub duration: u8,
}
