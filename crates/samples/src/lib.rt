// The samples that document 01 marks P, as rows of one table: specs/Table.antt has the rows, proofs/Hold.antt the theorem that every row
// holds. No code.
#![tactic(auto)]
