// The list of choices without those below a skipped gate, the walk over it, and why it has the same answer where every good choice that is
// skipped is beaten by another. Definitions and laws, no code.
