// Repairs: whether some next gate mends a missed output or cleans the ancilla. If every gate that is left has to do so and no gate can, the
// node is stuck and is pruned.
#![tactic(auto)]

pub mod matches; // whether some product of columns is just what an output lacks on a wire
pub mod repairable; // whether some next gate mends an output or cleans the ancilla
pub mod stuck; // whether a node is stuck
