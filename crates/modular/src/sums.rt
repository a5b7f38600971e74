// Sums of products of residues with one reduction at the end, and neither a division nor an unpredictable branch for a product: the sum stands in two
// words, and the carry of the lower one goes into the higher.
//
//     let mut total = Total { low: start, high: 0 };
//     total = total.add(x);         // for each word x: up to four products of residues, or two of a residue with any 32-bit word
//     total.residue(m)
ghost use Rattle.std.specs.Prelude.{◌≡◌, ◌*◌};
ghost use Rattle.modular.specs.Total.{added, residue_of};

use crate::modulus::Modulus;

// The number low + high × 2⁶⁴.
#[derive(Clone, Copy)]
pub struct Total {
    pub low: u64,
    pub high: u32,
}

// The whole product of two 32-bit words.
#[tactic(auto, using(crate::specs::Words::words_fit))]
pub fn times(a: u32, b: u32) -> u64
    ensures { result ≡ a * b }
{
    (a as u64) * (b as u64)
}

impl Total {
    // The lower word's carry goes into the higher: LLVM makes an addition and one with carry of it.
    #[tactic(auto, unfolding(crate::specs::Total::added))]
    pub fn add(self, x: u64) -> Self
        ensures { result ≡ added self x }
    {
        let low = self.low.wrapping_add(x);
        let carry = if low < x { 1 } else { 0 };
        Total {
            low,
            high: self.high.wrapping_add(carry),
        }
    }

    // One in the higher word counts for 2⁶⁴, which is the weight modulo p. Of that word 32 bits are taken: so nothing overflows, whatever it holds.
    #[tactic(auto, using(crate::specs::Total::high_fits, crate::specs::Total::fold_fits), unfolding(crate::specs::Total::residue_of, crate::specs::Total::added))]
    pub fn residue(self, m: Modulus) -> u32
        ensures { result ≡ residue_of m self }
    {
        let weight = m.weight as u64;
        let lower = Total {
            low: self.low,
            high: 0,
        };
        let sum = lower.add((self.high as u64) * weight);
        m.remainder(sum.low + (sum.high as u64) * weight)
    }
}
