// The programs' side of input and output: printing to standard output, words and files read, and the lines of data files. Only programs and
// the code of `main` use it.
//
// - `input`: the words after a program's name, files opened by name, and their bytes;
// - `output`: texts and numbers printed;
// - `slot_lines`: the answer of a search as lines, with the ready times of what was found;
// - `data_lines`: for the test programs, the lines of a data file, their words, and the bytes that a word writes in hexadecimal.
#![tactic(auto)]

pub mod data_lines;
pub mod input;
pub mod output;
pub mod slot_lines;
