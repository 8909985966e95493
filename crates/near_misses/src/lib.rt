// The search where some wanted bits of the table may be missed: the first good choice among those that miss at most so many.
//
// misses: how many wanted bits columns miss. fewest: a lower bound on the misses of every list that goes on from a node. near_offer: a list
// offered with its layouts, and the tests of a gate at a node. near_walk: the depth-first walk.
#![tactic(auto)]

pub mod fewest;
pub mod misses;
pub mod near_offer;
pub mod near_walk;
