// Whether a number is a modulus. Small numbers are divided, on a wheel. At the largest p that takes 15,000 divisions; from 524,288 on, where both
// take equally long, a table of inverses is quicker.
//
// The contract cites the crate meaning (Field); specs/Blocks.antt has the rule of the tables, which tables.py prints.
#![tactic(auto)]

mod blocks;
mod tables;
mod wheel;

ghost use Rattle.std.specs.Prelude.{◌≡◌};
ghost use Rattle.meaning.specs.Field.{is_modulus};

use blocks::prime_by_table;
use wheel::prime_by_wheel;

// Whether p is a prime from 2 to 2,147,483,647.
#[tactic(auto, using(residue::specs::Prime::is_modulus_small, residue::specs::Prime::is_modulus_large, residue::specs::Prime::is_prime_small, residue::specs::Prime::is_prime_divided, crate::proofs::Walk::two_or_three))]
pub fn is_modulus(p: u32) -> bool
    ensures { result ≡ is_modulus p }
{
    if p < 2 || p > 2147483647 {
        return false;
    }
    if p < 4 {
        return true;
    }
    if p % 2 == 0 || p % 3 == 0 {
        return false;
    }
    if p < 524288 {
        prime_by_wheel(p)
    } else {
        prime_by_table(p)
    }
}
