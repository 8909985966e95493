// What is printed for people about an answer: for a refusal its number and a sentence on what that means, for a pass its measures and ready
// times. All of it is written into lent buffers.
//
// - `meanings`: the sentence of every refusal number; it has those of a job, a circuit and verifying, and asks `sentences` for the others;
// - `sentences`: the sentences of the numbers of libraries, of rewriting, and of the other calls;
// - `refusal`: the two lines of a refusal;
// - `pass`: the two lines of a pass, and the report on an answer of `verify`.
#![tactic(auto)]

pub mod meanings;
pub mod pass;
pub mod refusal;
pub mod sentences;
