// The product of two polynomials in one slice: F at its front, f further up. It takes F's place.
ghost use Rattle.std.specs.Prelude.{◌≡◌, ◌+◌, ◌≤◌, length};
ghost use Rattle.modular.specs.Modulus.{Modular};
ghost use Rattle.refusal.specs.Number.{refused_by};
ghost use Rattle.recurrence.specs.Factor.{AreFactors, product_at, Multiplied, factors_fit, factors_refusal, GivesProduct};

use crate::convolution::crossed;
use checks::are_elements;
use modular::modulus::Modulus;
use refusal::Refusal;
use slices::copy_within;

// F, of degree d at the slice's front, and f, of degree t from the place `f` on.
#[derive(Clone, Copy, Debug, PartialEq, Eq)]
pub struct Factors {
    pub d: usize,
    pub f: usize,
    pub t: usize,
}

impl Factors {
    // Both lie in a slice of so many places, and the product ends before f.
    fn fit(self, places: usize) -> bool
        ensures { result ≡ factors_fit places self.d self.f self.t }
    {
        let degree = self.d.saturating_add(self.t);
        (degree <= 8192) & (degree < self.f) & (self.f.saturating_add(self.t) < places)
    }
}

// Coefficient k of the product: the sum over the places where both have a coefficient.
fn coefficient(m: Modulus, work: &[u32], factors: Factors, k: usize) -> u32
    requires { Modular m × AreFactors m.p work.now factors.d factors.f factors.t × (k ≤ factors.d + factors.t) }
    ensures { result ≡ product_at m.p work.now factors.d factors.f factors.t k }
{
    let Factors { d, f, t } = factors;
    let from = if k < t { 0 } else { k - t };
    let to = if k < d { k + 1 } else { d + 1 };
    crossed(work, 0, f + k, from, to).residue(m)
}

// F becomes F × f, from the highest coefficient down: those that are still read stand below.
fn multiply_within(m: Modulus, work: &mut [u32], factors: Factors)
    requires { Modular m × AreFactors m.p work.old factors.d factors.f factors.t }
    ensures { Multiplied m.p work.old factors.d factors.f factors.t work.new }
{
    for k in (0..factors.d + factors.t + 1).rev() {
        work[k] = coefficient(m, work, factors, k);
    }
}

// 3, 8 and 9 of two factors: p is 2 to 2,147,483,647, prime or not; their places; their coefficients.
fn check_factors(p: u32, work: &[u32], factors: Factors) -> Result<(), Refusal>
    ensures { refused_by result ≡ factors_refusal p work.now factors.d factors.f factors.t }
{
    if !((p >= 2) & (p <= 2147483647)) {
        return Err(Refusal::Modulus);
    }
    if !factors.fit(work.len()) {
        return Err(Refusal::Lengths);
    }
    let Factors { d, f, t } = factors;
    if !(are_elements(p, &work[..d + 1]) & are_elements(p, &work[f..f + t + 1])) {
        return Err(Refusal::Elements);
    }
    Ok(())
}

// F × f in F's place; the answer is the product's degree.
pub fn multiply(p: u32, work: &mut [u32], factors: Factors) -> Result<usize, Refusal>
    ensures { GivesProduct p work.old factors.d factors.f factors.t result work.new }
{
    check_factors(p, work, factors)?;
    let Factors { d, f, t } = factors;
    // F = 1, as a run's first pass has it: the product is f.
    if d == 0 && work[0] == 1 {
        copy_within(work, f, 0, t + 1);
        return Ok(t);
    }
    multiply_within(Modulus::of(p), work, factors);
    Ok(d + t)
}
