// On four wires without an ancilla, a gate list permutes the rows with the parity of its number of three-control gates; so a list without
// such a gate realizes no odd table. Definitions in specs/odd_tables and theorems in proofs/odd_tables, no code.
