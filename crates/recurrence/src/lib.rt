// Shortest recurrences of lists modulo p, of a list or of terms in place, all at once or step by step, and the product of two polynomials in one slice
// (factor).
//
// The contracts cite the crate meaning (Recurrence: the steps and what is shortest; Calls: what a call refuses, answers and leaves),
// specs/Recurrence.antt (what the slice holds), specs/Steps.antt (what a step makes of it) and specs/OneStep.antt (the calls for one step).
#![tactic(auto)]

mod convolution;
pub mod factor;
mod steps;
mod sums;

ghost use Rattle.std.specs.Prelude.{◌≡◌, ◌+◌, ◌*◌, ◌≤◌, ◌<◌, length};
ghost use Rattle.meaning.specs.Refusal.{first};
ghost use Rattle.refusal.specs.Number.{refused_by};
ghost use Rattle.recurrence.specs.Recurrence.{room_checks, terms_refusal, Generates, Recurred};
ghost use Rattle.recurrence.specs.OneStep.{register_fits, state_elements, step_refusal, Starts, StepsOn};

pub use crate::steps::Register;
use crate::steps::{make_steps, shortest, start};
use checks::{are_elements, check_recurrence};
use field::Field;
use modular::modulus::Modulus;
use modular::sums::times;
use refusal::Refusal;
use slices::write_padded;

// 3, 8 and 11 of room for a recurrence: p is 2 to 2,147,483,647, prime or not; at most 8,192 terms; the slice.
fn check_room(p: u32, count: usize, work: &[u32]) -> Result<(), Refusal>
    ensures { refused_by result ≡ first (room_checks p count work.now) }
{
    if !((p >= 2) & (p <= 2147483647)) {
        return Err(Refusal::Modulus);
    }
    if count > 8192 {
        return Err(Refusal::Lengths);
    }
    if work.len() < 4 * count + 8 {
        return Err(Refusal::Room);
    }
    Ok(())
}

// 3, 8, 11 and 9 of terms at the front of a slice, which can be read then.
#[tactic(auto, using(crate::specs::Recurrence::room_terms))]
fn check_terms(p: u32, count: usize, work: &[u32]) -> Result<(), Refusal>
    ensures { refused_by result ≡ terms_refusal p count work.now }
{
    check_room(p, count, work)?;
    if !are_elements(p, &work[..count]) {
        return Err(Refusal::Elements);
    }
    Ok(())
}

// The shortest recurrence of the `count` terms at the front of `work`, in place: f stands in the second region, zeros after it.
pub fn generate(p: u32, count: usize, work: &mut [u32]) -> Result<usize, Refusal>
    ensures { Generates p count work.old result work.new }
{
    check_terms(p, count, work)?;
    Ok(shortest(Modulus::of(p), count, work))
}

// ---- step by step

// 8 of a register for r: r is 1 to count, L and t are no longer than they can be before r, also together, and t stands in one of the last two regions.
fn register_fits(count: usize, r: usize, c: Register) -> bool
    requires { count ≤ 8192 }
    ensures { result ≡ register_fits count r c }
{
    let length = c.shift.saturating_add(c.held);
    let third = 2 * (count + 2);
    let fourth = 3 * (count + 2);
    (r >= 1)
        & (r <= count)
        & (c.L < r)
        & (length < r)
        & (c.L.saturating_add(length) <= r)
        & (((c.t == third) & (c.spare == fourth)) | ((c.t == fourth) & (c.spare == third)))
}

// 9 for r: the first r terms and q are elements, q has no coefficient above L, and the inverse is that of e.
fn state_elements(p: u32, count: usize, work: &[u32], r: usize, c: Register) -> bool
    requires { (0 < p) × (count ≤ 8192) × (4 * count + 8 ≤ length work.now) × (r ≤ count) × (c.L < r) }
    ensures { result ≡ state_elements p count r work.now c }
{
    let q = count + 2;
    let top = q + (c.L + 1);
    are_elements(p, &work[..r])
        & are_elements(p, &work[q..top])
        & are_elements(1, &work[top..2 * q])
        & (c.inverse < p)
        & (times(c.e, c.inverse) % (p as u64) == 1)
}

// What a step is refused for.
fn check_step(p: u32, count: usize, work: &[u32], r: usize, c: Register) -> Result<(), Refusal>
    ensures { refused_by result ≡ step_refusal p count r work.now c }
{
    check_room(p, count, work)?;
    if !register_fits(count, r, c) {
        return Err(Refusal::Lengths);
    }
    if !state_elements(p, count, work, r, c) {
        return Err(Refusal::Elements);
    }
    Ok(())
}

// The start of the steps for `count` terms, which are to stand at the front of `work`: none of them is asked for.
pub fn begin_steps(p: u32, count: usize, work: &mut [u32]) -> Result<Register, Refusal>
    ensures { Starts p count work.old result work.new }
{
    check_room(p, count, work)?;
    Ok(start(p, count, work))
}

// The step for r of a state that an earlier step left, or that is like one: the first r terms stand at the front of `work`. For the checks it reads these
// and q, place by place and without a branch; t may hold anything.
pub fn make_step(
    p: u32,
    count: usize,
    work: &mut [u32],
    r: usize,
    before: Register,
) -> Result<Register, Refusal>
    ensures { StepsOn p count r work.old before result work.new }
{
    check_step(p, count, work, r, before)?;
    Ok(make_steps(Modulus::of(p), count, work, r - 1, r, before))
}

// ---- of a list

// The shortest recurrence of s: its degree L, and f in the polynomial slice, zeros after it.
pub fn recurrence(
    field: Field,
    s: &[u32],
    polynomial: &mut [u32],
    work: &mut [u32],
) -> Result<usize, Refusal>
    ensures { Recurred field.p s.now polynomial.old work.old result polynomial.new work.new }
{
    check_recurrence(field.p, s, polynomial, work)?;
    let count = s.len();
    write_padded(s, &mut work[..count]);
    let degree = shortest(Modulus::of(field.p), count, work);
    let f = count + 2;
    let size = count + 1;
    write_padded(&work[f..f + size], &mut polynomial[..size]);
    Ok(degree)
}
