// A modulus p with what remainders modulo p are taken by, so that none costs a division.
//
//     let m = Modulus::of(p);       // once
//     m.remainder(x)                // for any word x
ghost use Rattle.std.specs.Prelude.{◌≡◌, ◌+◌, ◌*◌, ◌/◌, ◌%◌, ◌<◌};
ghost use Rattle.modular.specs.Modulus.{lessened, restored, reduced, modulus_of, barrett, quotient_of, difference_of};

use crate::sums::times;

#[derive(Clone, Copy)]
pub struct Modulus {
    pub p: u32,
    // 2⁶⁴ modulo p.
    pub weight: u32,
    // The quotient of 2⁶⁴ − 1 by p.
    pub reciprocal: u64,
}

// The lower 32 bits of x − y: all of the difference, where it is known to be that small.
#[tactic(auto, unfolding(crate::specs::Modulus::lessened))]
pub(crate) fn lessened(x: u64, y: u64) -> u32
    ensures { result ≡ lessened x y }
{
    (x.wrapping_sub(y) % 4294967296) as u32
}

// d, and p again where d's top bit says that it is below zero. Arithmetic and no `if`, which would be an unpredictable branch for an entry.
#[tactic(auto, unfolding(crate::specs::Modulus::restored))]
fn restored(p: u32, d: u32) -> u32
    ensures { result ≡ restored p d }
{
    d.wrapping_add((d >> 31) * p)
}

// s modulo p for s below 2p.
#[tactic(auto, unfolding(crate::specs::Modulus::reduced, crate::specs::Modulus::lessened))]
pub(crate) fn reduced(p: u32, s: u32) -> u32
    ensures { result ≡ reduced p s }
{
    restored(p, s.wrapping_sub(p))
}

// The upper word of a product: one multiplication, as LLVM compiles it.
fn upper(a: u64, b: u64) -> u64
    ensures { result ≡ a * b / 18446744073709551616 }
{
    ((a as u128 * b as u128) >> 64) as u64
}

// r + 1 modulo p, for r below p.
fn successor(p: u32, r: u32) -> u32
    requires { r < p }
    ensures { result ≡ (r + 1) % p }
{
    if r + 1 == p { 0 } else { r + 1 }
}

impl Modulus {
    // For 0, by which nothing is divided, reciprocal and weight are 0.
    pub fn of(p: u32) -> Self
        ensures { result ≡ modulus_of p }
    {
        if p == 0 {
            return Modulus {
                p,
                weight: 0,
                reciprocal: 0,
            };
        }
        let m = p as u64;
        Modulus {
            p,
            weight: successor(p, (u64::MAX % m) as u32),
            reciprocal: u64::MAX / m,
        }
    }

    // x modulo p, after Barrett: the quotient that the reciprocal gives is right or one too small, so that 32 bits of the difference are all of it.
    #[tactic(auto, using(crate::specs::Words::words_fit, residue::specs::Numbers::mod_mul_mod), unfolding(crate::specs::Modulus::barrett, crate::specs::Modulus::lessened))]
    pub fn remainder(self, x: u64) -> u32
        ensures { result ≡ barrett self x }
    {
        let p = self.p;
        let quotient = upper(self.reciprocal, x) % 4294967296;
        reduced(p, lessened(x, quotient * (p as u64)))
    }

    // The quotient of x by p, 32 bits of it: the one that the reciprocal gives is right or one too small, and what it leaves of x says which.
    #[tactic(auto, using(crate::specs::Words::words_fit), unfolding(crate::specs::Modulus::quotient_of))]
    pub fn quotient(self, x: u64) -> u32
        ensures { result ≡ quotient_of self x }
    {
        let near = upper(self.reciprocal, x) % 4294967296;
        let rest = lessened(x, near * (self.p as u64));
        let more = if rest < self.p { 0 } else { 1 };
        (near as u32).wrapping_add(more)
    }

    // a − b modulo p.
    #[tactic(auto, unfolding(crate::specs::Modulus::difference_of, crate::specs::Modulus::lessened))]
    pub fn difference(self, a: u32, b: u32) -> u32
        ensures { result ≡ difference_of self a b }
    {
        restored(self.p, a.wrapping_sub(b))
    }

    // a × b modulo p.
    pub fn product(self, a: u32, b: u32) -> u32
        ensures { result ≡ barrett self (a * b) }
    {
        self.remainder(times(a, b))
    }
}
