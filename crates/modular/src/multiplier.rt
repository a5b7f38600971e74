// Products by one constant for a whole row, after Shoup: the constant's quotient is taken once, by the modulus's reciprocal, and nothing costs a division.
//
//     let multiplier = Multiplier::of(m, c);       // once for a row, without a division too
//     multiplier.times(p, x)                       // c × x modulo p, for any 32-bit word x
ghost use Rattle.std.specs.Prelude.{◌≡◌};
ghost use Rattle.modular.specs.Modulus.{multiplier_of, shoup, shoup_added};

use crate::modulus::{Modulus, lessened, reduced};
use crate::sums::times;

#[derive(Clone, Copy)]
pub struct Multiplier {
    pub constant: u32,
    // constant × 2³² / p, rounded down.
    pub quotient: u32,
}

impl Multiplier {
    // For 0, by which nothing is divided, the quotient is 0.
    pub fn of(m: Modulus, c: u32) -> Self
        ensures { result ≡ multiplier_of m c }
    {
        Multiplier {
            constant: c,
            quotient: m.quotient((c as u64) << 32),
        }
    }

    // constant × x modulo p: the multiple of p that is taken off leaves less than 2p.
    #[tactic(auto, using(crate::specs::Words::words_fit), unfolding(crate::specs::Modulus::shoup))]
    pub fn times(self, p: u32, x: u32) -> u32
        ensures { result ≡ shoup p self x }
    {
        let h = times(self.quotient, x) >> 32;
        reduced(p, lessened(times(self.constant, x), h * (p as u64)))
    }

    // y + constant × x modulo p.
    #[tactic(auto, unfolding(crate::specs::Modulus::shoup_added))]
    pub fn added(self, p: u32, x: u32, y: u32) -> u32
        ensures { result ≡ shoup_added p self x y }
    {
        reduced(p, y.wrapping_add(self.times(p, x)))
    }
}
