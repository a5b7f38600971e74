// The calls of host/filzeur.h, exported to C and C++: each calls the crate that has it and lays the answer out as a struct of numbers, or as the
// refusal's number alone.
//
// A contract says the struct, by meaning's Calls and specs/Answers.antt (the numbers of each struct), and each lent slice afterwards. The functions
// that lay an answer out take it as its crate promises it, whichever call it is of.
#![tactic(auto)]

pub mod elements;
pub mod offered;
pub mod products;
pub mod recurrences;
pub mod runs;
pub mod texts;
