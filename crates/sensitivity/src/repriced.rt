// Theorems on two jobs that are alike but for their prices: how far a change of one price moves the cost of a list, and the cost of the
// first good choice. No code.
