// RevLib `.real` text (change request 1): its grammar, what reading and writing it answer, and the theorems that reading is exact and
// undoes writing. Definitions and theorems only, no code: `revlib_reader` reads such text, `revlib_writer` writes it.
#![tactic(auto)]
