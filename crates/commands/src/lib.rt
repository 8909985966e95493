// The commands that search: from the bytes that `main` and `gazbolk` read to the text that they print. `printed` defines that text.
//
// - `program`: `main`, from its input to its line;
// - `search_files`: `gazbolk search` and `gazbolk batch`;
// - `compare`: `gazbolk compare`;
// - `rewrite`: `gazbolk rewrite`;
// - `closest`: `gazbolk closest`.
#![tactic(auto)]

pub mod closest;
pub mod compare;
pub mod program;
pub mod rewrite;
pub mod search_files;
