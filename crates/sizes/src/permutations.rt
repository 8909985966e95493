// The permutations of three wires in dictionary order, and the least gate count of each: definitions and theorems. No code.
