// The shortest recurrence of a list, by document 01's steps: document 002, algorithm Minimum Polynomial, Step 2. Its letters are
//
//     document 002    a    2d       Λ    λ    Σ    l    δ_r    δ
//     here            s    count    q    z    t    L    d      e
//
// (So our d is not its d, which is half of count; its c_i are the coefficients of Λ.)
//
// The steps run in one slice of four regions of count + 2 places each: the terms s, q, and two in which t and the q that is to become t take
// turns. t is never moved: `shift` says how often it was multiplied by z.
//
// The contracts cite the crate meaning (Recurrence: the steps) and specs/Steps.antt: FollowsSteps, that d, q, t, L and e are those of document
// 01's steps, MakesStep, that a step keeps it, and apart from them how regions and register stand for these (represented, Laid); of the whole,
// specs/Recurrence.antt.
ghost use Rattle.std.specs.Prelude.{ℕ, ◌+◌, ◌≤◌, ◌<◌, length, take};
ghost use Rattle.meaning.specs.List.{at};
ghost use Rattle.meaning.specs.Field.{minus, times};
ghost use Rattle.modular.specs.Modulus.{Modular};
ghost use Rattle.laws.specs.Written.{Written};
ghost use Rattle.recurrence.specs.Recurrence.{Ready, HoldsGenerator};
ghost use Rattle.recurrence.specs.Steps.{FollowsSteps, represented, Laid, TermsStay, FirstTerms, Sound, BeforeStep, MakesStep, MakesSteps};

use crate::convolution::crossed;
use modular::modulus::Modulus;
use modular::multiplier::Multiplier;
use slices::{clear, copy_within, reverse};

// What the steps keep beside the regions.
#[derive(Clone, Copy, Debug, PartialEq, Eq)]
pub struct Register {
    // d, the discrepancy of r; before the first r it says nothing
    pub d: u32,
    // t: `held` coefficients, which stand from `t` on, times z to the power `shift`
    pub t: usize,
    pub held: usize,
    pub shift: usize,
    // L
    pub L: usize,
    // e, and its inverse
    pub e: u32,
    pub inverse: u32,
    // the region that t leaves free
    pub spare: usize,
}

// ---- parts of the slice

// q − factor·t in q's place: `size` coefficients of q from `q` on, and of t from `t` on.
fn subtract(m: Modulus, factor: u32, work: &mut [u32], q: usize, t: usize, size: usize)
    requires factor_lt_p { (factor < m.p) × Modular m × (q + size ≤ t) × (t + size ≤ length work.old) }
    requires by_index { (i : ℕ) → i < size → at work.old (q + i) < m.p }
    ensures { Written work.old q size
        (λ i. minus m.p (at work.old (q + i)) (times m.p factor (at work.old (t + i)))) work.new }
{
    let k = Multiplier::of(m, factor);
    for i in 0..size {
        work[q + i] = m.difference(work[q + i], k.times(m.p, work[t + i]));
    }
}

// ---- the steps

// Λ₀ ← 1, Σ₀ ← 0, l₀ ← 0, δ ← 1: q = 1, t = 0, L = 0, e = 1, whatever the regions held.
pub(crate) fn start(p: u32, count: usize, work: &mut [u32]) -> Register
    requires { FirstTerms p count 0 work.old }
    ensures follows_steps { FollowsSteps p (take 0 work.old) 0 result.d (represented count work.new result) }
    ensures laid { Laid p count 0 result × TermsStay count work.old work.new }
{
    let q = count + 2;
    clear(&mut work[q..2 * q]);
    work[q] = 1;
    Register {
        d: 0,
        t: 2 * q,
        held: 0,
        shift: 0,
        L: 0,
        e: 1,
        inverse: 1,
        spare: 3 * q,
    }
}

// The body of the loop: d, q, t, L and e of r − 1 become those of r. Of the terms the first r are read, and no later one; how q, t, L and e came
// about is not asked.
pub(crate) fn step(
    m: Modulus,
    count: usize,
    work: &mut [u32],
    r: usize,
    before: Register,
) -> Register
    requires { BeforeStep m.p count r work.old before × Modular m }
    ensures { MakesStep m.p count r work.old before work.new result }
{
    let q = count + 2;
    let mut after = before;
    // Discrepancy. δ_r ← c_n·a_{r−1} + c_{n−1}·a_{r−2} + .. + c_0·a_{r−n−1}, c_{n−i} being q[i] of r − 1 (document 002 prints Λ_r): d = the sum of
    // q[i] × s[r − 1 − i] over i = 0 to L.
    let d = crossed(work, q, r - 1, 0, before.L + 1).residue(m);
    after.d = d;
    if d == 0 {
        after.shift += 1; // Σ_r ← λ·Σ_{r−1}: t = z·t; q, L and e stay
        return after;
    }
    // Update. Λ_r ← Λ_{r−1} − (δ_r/δ)·λ·Σ_{r−1}: q = q − (d/e)·z·t, in q's place. If 2·l_{r−1} < r (document 002 prints l_r), t will be the old q,
    // which is copied before it is gone.
    let longer = 2 * before.L < r;
    if longer {
        copy_within(work, q, before.spare, before.L + 1);
    }
    let quotient = m.product(d, before.inverse);
    let from = q + 1 + before.shift; // z·t begins with z to the power 1 + shift
    subtract(m, quotient, work, from, before.t, before.held);
    // Length. If 2·l_{r−1} < r:
    if longer {
        after.t = before.spare; // Σ_r ← Λ_{r−1}: t = q, the L + 1 coefficients that were copied
        after.held = before.L + 1;
        after.shift = 0;
        after.spare = before.t;
        after.L = r - before.L; // l_r ← r − l_{r−1}: L = r − L
        after.e = d; // δ ← δ_r: e = d
        after.inverse = field::inverse_modulo(m.p, d);
    } else {
        after.shift += 1; // Σ_r ← λ·Σ_{r−1}: t = z·t; L and e stay
    }
    after
}

// The steps for r = `from` + 1 to `to`. (The one place that makes a step, so that it is compiled into the loop.)
pub(crate) fn make_steps(
    m: Modulus,
    count: usize,
    work: &mut [u32],
    from: usize,
    to: usize,
    before: Register,
) -> Register
    requires { (from ≤ to) × FirstTerms m.p count to work.old × Sound m.p count from work.old before × Modular m }
    ensures { MakesSteps m.p count from to work.old before work.new result }
{
    let mut c = before;
    for made in from..to {
        c = step(m, count, work, made + 1, c);
    }
    c
}

// For r = 1, 2, ..: the shortest recurrence of the `count` terms at the front of `work`, its degree L, and f in the second region, zeros
// after it. f ← λ^l·Λ(1/λ) is q in reverse order.
pub(crate) fn shortest(m: Modulus, count: usize, work: &mut [u32]) -> usize
    requires { Ready m.p count work.old × Modular m }
    ensures { HoldsGenerator m.p count work.old work.new result }
{
    let fresh = start(m.p, count, work);
    let c = make_steps(m, count, work, 0, count, fresh);
    let q = count + 2;
    reverse(&mut work[q..q + c.L + 1]);
    c.L
}
