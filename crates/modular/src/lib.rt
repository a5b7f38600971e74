// Arithmetic modulo p for loops, without a division or an unpredictable branch in them: remainders after Barrett, products by a constant after Shoup,
// sums in two words that are reduced once, products by a diagonal.
//
// Every function is total. Anyone may make up a record; nothing overflows then either, and each contract is one equation for all inputs. What the
// equation means for a record that `of` made is said by the laws in specs (Modulus: a modulus and a multiplier; Total: two words; Sums: sums over ranges and
// loops that add them up; Diagonal: products place by place).
#![tactic(auto)]

pub mod diagonal;
pub mod modulus;
pub mod multiplier;
pub mod sums;
