// A pass of a run, in the run's work slice: F at the front, 2n + 1 places; a copy of r and two regions for its iterates, n places each, in which a pass
// with a window makes its test; r and two regions for its iterates Aⁱr, n places each; the recurrence's part, 8 × left + 8 places; the rest is free. What
// needs no F runs in the `area` from r on, or from the test's places on.
ghost use Rattle.std.specs.Prelude.{◌≡◌, true, [], ◌+◌, ◌-◌, ◌*◌, ◌≤◌, ◌<◌, length, get_or, set};
ghost use Rattle.meaning.specs.Field.{is_modulus};
ghost use Rattle.meaning.specs.Matrix.{diagonal, scaled};
ghost use Rattle.meaning.specs.Solver.{projections, dot};
ghost use Rattle.checks.specs.Slices.{matrix_of};
ghost use Rattle.checks.specs.Valid.{Vector};
ghost use Rattle.laws.specs.Part.{part};
ghost use Rattle.laws.specs.Lent.{lent};
ghost use Rattle.wiedemann.specs.Operator.{plain, operator, rows, projection};
ghost use Rattle.wiedemann.specs.Projection.{Words};
ghost use Rattle.wiedemann.specs.Turns.{region_at, Other, Turning, Prepared, Advanced, Sequenced, Leading, Applied, Generated};
ghost use Rattle.wiedemann.specs.Pass.{generator_at, Shortened, Makes, Passes};
ghost use Rattle.checks.specs.Pass.{State};
ghost use Rattle.checks.specs.Products.{Few, added, products_with};

use crate::matrix::step_within;
use crate::operator::Operator;
use crate::projection::{Projection, projected};
use crate::window::factor_by_window;
use checks::{Matrix, Products, check_pass, residual_at};
use field::Field;
use modular::diagonal::scale;
use modular::modulus::Modulus;
use recurrence::factor::{Factors, multiply};
use recurrence::generate;
use refusal::Refusal;
use slices::copy_within;

// Where the iterate of r after i products stands: r at the front, the others by turns in the two regions behind it.
pub(crate) fn region(n: usize, i: usize) -> usize
    requires { n ≤ 4096 }
    ensures { result ≡ region_at n i }
{
    if i == 0 {
        0
    } else if i % 2 == 1 {
        n
    } else {
        2 * n
    }
}

// The n places from `at` on times X.
fn scale_part(ax: &Operator, area: &mut [u32], at: usize)
    requires { (at ≤ 8192) × (at + rows ax.now ≤ length area.old) × Vector ax.now.m.p (rows ax.now) (part at (rows ax.now) area.old) }
    ensures { area.new ≡ lent area.old at (rows ax.now) (diagonal ax.now.m.p ax.now.scales.now (part at (rows ax.now) area.old)) }
{
    let n = ax.a.starts.len() - 1;
    scale(ax.m, ax.scales, &mut area[at..at + n]);
}

// The iterate after i products made ready for the next one: times X, in its place, or r, which stays, in the region that is idle then. The answer is
// where it stands.
fn prepare(ax: &Operator, area: &mut [u32], i: usize) -> usize
    requires { Turning ax.now.m.p (rows ax.now) (region_at (rows ax.now) i) area.old }
    ensures { Prepared ax.now.m.p (rows ax.now) i ax.now.scales.now area.old result area.new }
{
    let n = ax.a.starts.len() - 1;
    let from = region(n, i);
    if i == 0 {
        let idle = 2 * n;
        copy_within(area, from, idle, n);
        scale_part(ax, area, idle);
        return idle;
    }
    scale_part(ax, area, from);
    from
}

// Horner's step after some products: c × r plus A times what stands at `from`, into the next region. r and the iterates are lent to it. The answer is the
// products that there are then.
fn advance_from(ax: &Operator, c: u32, area: &mut [u32], done: Products, from: usize) -> Products
    requires { Turning ax.now.m.p (rows ax.now) from area.old × Few done
        × Other (rows ax.now) from (region_at (rows ax.now) (done.made + 1)) }
    ensures { (result ≡ added done (products_with 1 (plain ax.now)))
        × Advanced ax.now.m.p (plain ax.now) c area.old from area.new (region_at (rows ax.now) result.made) }
{
    let n = ax.a.starts.len() - 1;
    let to = region(n, done.made + 1);
    let more = step_within(ax, c, &mut area[..3 * n], 0, from, to);
    done + more
}

// The same with AX and the iterate, which is scaled first.
pub(crate) fn advance_scaled(ax: &Operator, c: u32, area: &mut [u32], done: Products) -> Products
    requires { Turning ax.now.m.p (rows ax.now) (region_at (rows ax.now) done.made) area.old × Few done }
    ensures { (result ≡ added done (products_with 1 (operator ax.now)))
        × Advanced ax.now.m.p (operator ax.now) c area.old (region_at (rows ax.now) done.made)
        area.new (region_at (rows ax.now) result.made) }
{
    let from = prepare(ax, area, done.made);
    advance_from(ax, c, area, done, from)
}

// The same, and where there are no scales nothing beside the step. So short that LLVM compiles it into its callers, and the loop over the rows stays a
// function of its own: compiled together with the scaling it was slower.
pub(crate) fn advance(ax: &Operator, c: u32, area: &mut [u32], done: Products) -> Products
    requires { Turning ax.now.m.p (rows ax.now) (region_at (rows ax.now) done.made) area.old × Few done }
    ensures { (result ≡ added done (products_with 1 (operator ax.now)))
        × Advanced ax.now.m.p (operator ax.now) c area.old (region_at (rows ax.now) done.made)
        area.new (region_at (rows ax.now) result.made) }
{
    let n = ax.a.starts.len() - 1;
    if ax.scales.is_empty() {
        let from = region(n, done.made);
        return advance_from(ax, c, area, done, from);
    }
    advance_scaled(ax, c, area, done)
}

// Term i, where the recurrence has it: the projection's dot product with the iterate Aⁱr, which stands at `from`.
pub(crate) fn term(ax: &Operator, u: &Projection, area: &mut [u32], from: usize, i: usize)
    requires words { Words (rows ax.now) u.now.vectors u.now.words.now }
    requires places { (from + rows ax.now ≤ length area.old) × (3 * rows ax.now + i < length area.old)
        × Vector ax.now.m.p (rows ax.now) (part from (rows ax.now) area.old) }
    ensures { area.new ≡ set area.old (3 * rows ax.now + i)
        (dot ax.now.m.p (projection ax.now u.now) (part from (rows ax.now) area.old)) }
{
    let n = ax.a.starts.len() - 1;
    area[3 * n + i] = projected(ax.m, u, &area[from..from + n]);
}

// The 2 × left terms u·r, u·Ar, u·A²r, .. where the recurrence begins; the answer is the products that they took.
fn terms(ax: &Operator, u: &Projection, area: &mut [u32], left: usize) -> Products
    requires left { (0 < left) × (left ≤ 4096) × Words (rows ax.now) u.now.vectors u.now.words.now }
    requires room { (3 * rows ax.now + 2 * left ≤ length area.old)
        × Vector ax.now.m.p (rows ax.now) (part 0 (rows ax.now) area.old) }
    ensures { (result ≡ products_with (2 * left - 1) (operator ax.now))
        × Sequenced ax.now.m.p (operator ax.now) left (projection ax.now u.now) area.old area.new }
{
    let n = ax.a.starts.len() - 1;
    let mut done = Products::default();
    term(ax, u, area, 0, 0);
    for i in 1..2 * left {
        done = advance(ax, 0, area, done);
        term(ax, u, area, region(n, i), i);
    }
    done
}

// The degree of the shortest recurrence of the `count` terms from `from` on; its generator stands behind them. These terms are never refused.
fn recurrence_of_terms(p: u32, area: &mut [u32], from: usize, count: usize) -> usize
    requires modulus { (is_modulus p ≡ true) × (count ≤ 8192) × (from ≤ 65536) }
    requires room { (from + (4 * count + 8) ≤ length area.old) × Vector p count (part from count area.old) }
    ensures { Generated p area.old from count area.new result }
{
    let end = from + (4 * count + 8);
    generate(p, count, &mut area[from..end]).unwrap_or(0)
}

// r becomes f(A)r by Horner's rule, for the monic f of degree t at `f`; the answer is the products that this took.
pub(crate) fn apply_within(ax: &Operator, area: &mut [u32], f: usize, t: usize) -> Products
    requires { (t ≤ 8192) × Leading ax.now.m.p (rows ax.now) area.old f t }
    ensures { (result ≡ products_with t (operator ax.now))
        × Applied ax.now.m.p (operator ax.now) area.old f t area.new }
{
    let mut done = Products::default();
    for i in (0..t).rev() {
        let c = area[f + i];
        done = advance(ax, c, area, done);
    }
    let n = ax.a.starts.len() - 1;
    copy_within(&mut area[..3 * n], region(n, done.made), 0, n);
    done
}

// A pass: left, its degree t, its applications and the entries that these multiplied.
#[derive(Clone, Copy, Debug, PartialEq, Eq)]
pub struct Pass {
    pub left: usize,
    pub degree: usize,
    pub applications: u64,
    pub multiplied: u64,
}

// All 2 × left terms with the projection, their generator f, which stands behind them, and f(A)r in r's place. Every product that was made is counted.
fn factor_of_terms(ax: &Operator, u: &Projection, area: &mut [u32], left: usize) -> Pass
    requires left { (0 < left) × (left ≤ 4096) × Words (rows ax.now) u.now.vectors u.now.words.now }
    requires room { (3 * rows ax.now + (8 * left + 8) ≤ length area.old)
        × Vector ax.now.m.p (rows ax.now) (part 0 (rows ax.now) area.old) }
    ensures { Shortened ax.now.m.p (operator ax.now) 0 (projection ax.now u.now) left 0 0 area.old result area.new }
{
    let n = ax.a.starts.len() - 1;
    let first = terms(ax, u, area, left);
    let t = recurrence_of_terms(ax.m.p, area, 3 * n, 2 * left);
    let more = apply_within(ax, area, 3 * n + (2 * left + 2), t);
    let done = first + more;
    Pass {
        left,
        degree: t,
        applications: done.made as u64,
        multiplied: done.multiplied,
    }
}

// A pass's factor f, with the window; 0 asks for no test. The area begins with the test's places.
fn take_factor(ax: &Operator, u: &Projection, area: &mut [u32], left: usize, window: u32) -> Pass
    requires left { (0 < left) × (left ≤ 4096) × Words (rows ax.now) u.now.vectors u.now.words.now }
    requires room { (6 * rows ax.now + (8 * left + 8) ≤ length area.old)
        × Vector ax.now.m.p (rows ax.now) (part (3 * rows ax.now) (rows ax.now) area.old) }
    ensures { Shortened ax.now.m.p (operator ax.now) window (projection ax.now u.now) left 0 (3 * rows ax.now)
        area.old result area.new }
{
    if window == 0 {
        let r = 3 * (ax.a.starts.len() - 1);
        return factor_of_terms(ax, u, &mut area[r..], left);
    }
    factor_by_window(ax, u, area, left, window)
}

// ---- the call

// Where f stands after the recurrence of 2 × left terms: behind r, its iterates and the terms.
fn generator_at(n: usize, left: usize) -> usize
    requires { (n ≤ 4096) × (left ≤ n) }
    ensures { (result ≡ generator_at n left) × (result ≤ 65536) }
{
    residual_at(n as u32) + (3 * n + (2 * left + 2))
}

// A pass with projection j of a state that no check turned down: r becomes f(A)r, F becomes F × f.
fn pass_of_state(
    ax: &Operator,
    words: &[u32],
    window: u32,
    j: usize,
    d: usize,
    work: &mut [u32],
) -> Pass
    requires { State ax.now.m.p (rows ax.now) d words.now work.old }
    ensures { Makes ax.now.m.p (operator ax.now) window
        (get_or (projections ax.now.m.p (rows ax.now) words.now) j []) d work.old result work.new }
{
    let n = ax.a.starts.len() - 1;
    let left = n - d;
    let u = Projection {
        words,
        vectors: words.len() / n,
        index: j,
    };
    let first = 2 * n + 1;
    let q = take_factor(ax, &u, &mut work[first..], left, window);
    let f = generator_at(n, left);
    let end = f + q.degree + 1;
    let factors = Factors { d, f, t: q.degree };
    // never refused: F and f are such factors
    let _ = multiply(ax.m.p, &mut work[..end], factors);
    q
}

// A pass on AX with projection j and the window of the run whose r and F, of degree d, stand in the work slice. It asks nothing of how the run came there, and
// refuses what is no such state; any window is one.
pub fn make_pass(
    field: Field,
    a: &Matrix,
    scales: &[u32],
    words: &[u32],
    window: u32,
    j: usize,
    d: usize,
    work: &mut [u32],
) -> Result<Pass, Refusal>
    ensures { Passes field.p (matrix_of a.now) scales.now words.now window j d work.old result work.new }
{
    check_pass(field.p, a, scales, words, d, work)?;
    let ax = Operator {
        m: Modulus::of(field.p),
        a,
        scales,
    };
    Ok(pass_of_state(&ax, words, window, j, d, work))
}
