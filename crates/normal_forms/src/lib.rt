// Normal forms: which gates need not come next, since another list does the same and comes first in the order of answers. A gate is
// skipped if it fires in no row (N1), undoes an earlier one (N2) or could have stood earlier (N3). Here N2 and N3 are kept as marks.
#![tactic(auto)]

pub mod marks; // whether a gate is marked
pub mod masks; // the marks of all gates, kept along a gate list
pub mod words; // the marks of the gates of one target, as a word
