// What `main` and `gazbolk` print, as definitions over the bytes of the files that they read. The code here writes what needs no search,
// and says how many bytes of a file decide what is printed, so that no more are read. `commands` has the code that searches.
//
// - `files`: how many bytes of each file decide what is printed of it;
// - `verdict`: the code of `gazbolk verify`;
// - `batch_parts`: what `gazbolk batch` prints, in parts;
// - `differences`: the lines of `gazbolk compare`;
// - `misses`: what `gazbolk closest` prints;
// - `rewriting`: what `gazbolk rewrite` prints.
#![tactic(auto)]

pub mod batch_parts;
pub mod differences;
pub mod files;
pub mod misses;
pub mod rewriting;
pub mod verdict;
