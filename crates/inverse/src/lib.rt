// A table and its inverse. Proved here, with no code: where a full permutation and its inverse stand in jobs that are otherwise alike,
// without an ancilla and with the layout fixed, a search finds a circuit for both or for neither, and the two circuits agree in cost, gates
// and depth (document 02, change request 7). It holds for the jobs' own gates, and for the same library with both. Read specs/Inverse.antt,
// then proofs/Searches.antt.
#![tactic(auto)]

pub mod least; // theorems: the table of sizes tells which searches answer "none" (no code)
