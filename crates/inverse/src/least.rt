// The table of sizes against the search: for a permutation of three wires that only the gate limit restricts, the search
// answers 14 exactly where the permutation's cell is above that limit (document 02, change request 4). Definitions and theorems. No code.
