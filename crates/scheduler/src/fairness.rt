// Turns are shared fairly, and a job's answer is the one that it would get alone: specs/fairness/Histories.antt has the definitions,
// proofs/fairness/Promises.antt the theorems. No code.
