// A Bloom filter of states, in a slice of bits that the caller lends. The hash of a state is a sum of one share for each wire, so a state
// without one or two of its wires (a projection) has a hash too. Each state is in the filter whole and with its projections; so one can ask
// which wires a gate may change. A collision only makes the filter seem to hold more states.
#![tactic(auto)]

pub mod bits; // two bits of a word for each hash: set and tested
pub mod hash; // the hash of a state, and the description of a filter
pub mod insert; // a state put in, with its projections
pub mod member; // whether a state is in the filter
pub mod targets; // which targets the next gate may have, by the projections
