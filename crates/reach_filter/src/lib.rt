// The reach filter of a search: a Bloom filter of the states that are within some gates, its radius, of what the table wants. A node with
// so few gates left is pruned if its state is not in the filter. The filter is filled once, and asked at every node.
#![tactic(auto)]

pub mod fill; // every state within some gates of given columns, put into a filter
pub mod filter; // the filter of a search: described, tested and filled
pub mod mirrors; // gates under another order of the wires
pub mod symmetric; // whether one filling serves every allowed layout
