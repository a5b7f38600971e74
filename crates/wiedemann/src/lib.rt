// Sparse matrices modulo a prime: their products and polynomials, one pass of a run, and the checks of offered answers.
#![tactic(auto)]

pub mod matrix;
pub mod offered;
mod operator;
pub mod pass;
mod projection;
mod sums;
mod window;
