// Bounds that prune the search: how many gates the spare cost still buys, how many gates of two or more controls (heavy gates) the table
// still needs, and which costs a gate list can have at all.
#![tactic(auto)]

pub mod budget; // how many gates a spare cost buys, some of them heavy
pub mod elimination; // how many heavy gates are still needed, by elimination over the columns
pub mod span; // what the elimination works on: the rows that want every output, and the wanted columns there
pub mod sums; // which costs a gate list can have, and with how many gates
