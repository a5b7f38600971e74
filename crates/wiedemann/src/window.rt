// A pass with a window, request (v): a term and a step of the recurrence by turns, and f(A)r once, where the last discrepancies were 0. The slices are laid
// out as in pass.rt. The test works on a copy of r in places of its own, so that r and the current iterate are still there where it fails.
ghost use Rattle.std.specs.Prelude.{◌≡◌, cond, not, ◌&&◌, ◌+◌, ◌*◌, ◌≤◌, ◌<◌, eqb, ltb, length};
ghost use Rattle.meaning.specs.List.{at};
ghost use Rattle.checks.specs.Valid.{Vector};
ghost use Rattle.checks.specs.Products.{products_with};
ghost use Rattle.laws.specs.Part.{part};
ghost use Rattle.wiedemann.specs.Operator.{operator, rows, projection};
ghost use Rattle.wiedemann.specs.Projection.{Words};
ghost use Rattle.wiedemann.specs.Pass.{Shortened};
ghost use Rattle.wiedemann.specs.Window.{due_by, Room, Begun, ToStep, StepMade, ToHear, Hears, Listening, Unasked, Listened, Turned, Finished, Tried};

use crate::operator::Operator;
use crate::pass::{Pass, advance_scaled, apply_within, region, term};
use crate::projection::Projection;
use checks::Products;
use recurrence::{Register, begin_steps, make_step};
use slices::{copy_within, is_zero, reverse};

// What a pass knows after some terms: their number and the products that they took, the steps' register, and how many of the last discrepancies
// were 0.
#[derive(Clone, Copy, Debug, PartialEq, Eq)]
struct Heard {
    terms: usize,
    done: Products,
    steps: Register,
    zeros: usize,
}

// ---- a term and a step

// q = 1, t = 0, L = 0, e = 1, in the recurrence's part, which is never refused.
fn start_steps(ax: &Operator, area: &mut [u32], left: usize) -> Register
    requires { Room (rows ax.now) left area.old }
    ensures { Begun ax.now.m.p (rows ax.now) left area.old result area.new }
{
    let first = 3 * (ax.a.starts.len() - 1);
    let end = first + (8 * left + 8);
    begin_steps(ax.m.p, 2 * left, &mut area[first..end]).unwrap()
}

// The step for r, whose terms stand in the recurrence's part: it is never refused.
fn step(ax: &Operator, area: &mut [u32], left: usize, r: usize, before: Register) -> Register
    requires room { Room (rows ax.now) left area.old }
    requires to_step { ToStep ax.now.m.p (rows ax.now) left r area.old before }
    ensures { StepMade ax.now.m.p (rows ax.now) left r area.old result area.new }
{
    let first = 3 * (ax.a.starts.len() - 1);
    let end = first + (8 * left + 8);
    make_step(ax.m.p, 2 * left, &mut area[first..end], r, before).unwrap()
}

// How many of the last discrepancies were 0, d included.
fn count_zeros(zeros: usize, d: u32) -> usize
    requires { zeros ≤ 8192 }
    ensures { result ≡ cond (eqb d 0) (zeros + 1) 0 }
{
    if d == 0 { zeros + 1 } else { 0 }
}

// The next term, of the iterate that the products made, and its step.
fn hear(ax: &Operator, u: &Projection, area: &mut [u32], left: usize, before: Heard) -> Heard
    requires words { Words (rows ax.now) u.now.vectors u.now.words.now }
    requires room { Room (rows ax.now) left area.old }
    requires to_hear { ToHear ax.now.m.p (rows ax.now) left before.done.made area.old before.steps before.zeros }
    ensures { Hears ax.now.m.p (rows ax.now) left (projection ax.now u.now) before.done area.old result area.new }
{
    let n = ax.a.starts.len() - 1;
    let made = before.done.made;
    term(ax, u, area, region(n, made), made);
    let terms = made + 1;
    let steps = step(ax, area, left, terms, before.steps);
    Heard {
        terms,
        done: before.done,
        steps,
        zeros: count_zeros(before.zeros, steps.d),
    }
}

// Fresh steps, and the first term, u·r.
fn listen_first(ax: &Operator, u: &Projection, area: &mut [u32], left: usize) -> Heard
    requires words { Words (rows ax.now) u.now.vectors u.now.words.now }
    requires room { (0 < left) × Room (rows ax.now) left area.old
        × Vector ax.now.m.p (rows ax.now) (part 0 (rows ax.now) area.old) }
    ensures { Listening ax.now.m.p (operator ax.now) left
        (projection ax.now u.now) area.old result area.new × (result.terms ≡ 1) }
{
    let fresh = Heard {
        terms: 0,
        done: Products::default(),
        steps: start_steps(ax, area, left),
        zeros: 0,
    };
    hear(ax, u, area, left, fresh)
}

// The next iterate, its term and its step.
fn listen_next(ax: &Operator, u: &Projection, area: &mut [u32], left: usize, heard: Heard) -> Heard
    requires words { Words (rows ax.now) u.now.vectors u.now.words.now }
    requires room { (0 < left) × Room (rows ax.now) left area.old
        × Vector ax.now.m.p (rows ax.now) (part 0 (rows ax.now) area.old) }
    requires listening { Listening ax.now.m.p (operator ax.now) left
        (projection ax.now u.now) area.old heard area.old × (heard.terms < 2 * left) }
    ensures { Listening ax.now.m.p (operator ax.now) left
        (projection ax.now u.now) area.old result area.new × (result.terms ≡ heard.terms + 1) }
{
    let done = advance_scaled(ax, 0, area, heard.done);
    hear(ax, u, area, left, Heard { done, ..heard })
}

// Whether f(A)r is to be worked out: L is at least 1, and the last `window` discrepancies were all 0.
fn is_due(window: u32, heard: Heard) -> bool
    ensures { result ≡ due_by window heard.zeros heard.steps.L }
{
    let window = window as usize;
    1 <= window && window <= heard.zeros && 1 <= heard.steps.L
}

// Whether a term is to follow without a test before it.
fn goes_on(window: u32, left: usize, heard: Heard) -> bool
    requires { left ≤ 4096 }
    ensures { result ≡ ltb heard.terms (2 * left) && not (due_by window heard.zeros heard.steps.L) }
{
    heard.terms < 2 * left && !is_due(window, heard)
}

// Terms and steps, until a test is due or all terms are there.
fn listen(
    ax: &Operator,
    u: &Projection,
    area: &mut [u32],
    left: usize,
    window: u32,
    from: Heard,
) -> Heard
    requires words { Words (rows ax.now) u.now.vectors u.now.words.now }
    requires room { (0 < left) × Room (rows ax.now) left area.old
        × Vector ax.now.m.p (rows ax.now) (part 0 (rows ax.now) area.old) }
    requires listening { Listening ax.now.m.p (operator ax.now) left
        (projection ax.now u.now) area.old from area.old }
    requires unasked { Unasked ax.now.m.p (operator ax.now) left window (projection ax.now u.now)
        (part 0 (rows ax.now) area.old) from.terms }
    ensures { Listened ax.now.m.p (operator ax.now) left window
        (projection ax.now u.now) area.old result area.new }
{
    let mut heard = from;
    while goes_on(window, left, heard) {
        heard = listen_next(ax, u, area, left, heard);
    }
    heard
}

// The first term and those after it, until a test is due or all terms are there.
fn listen_until_due(
    ax: &Operator,
    u: &Projection,
    area: &mut [u32],
    left: usize,
    window: u32,
) -> Heard
    requires words { Words (rows ax.now) u.now.vectors u.now.words.now }
    requires room { (0 < left) × Room (rows ax.now) left area.old
        × Vector ax.now.m.p (rows ax.now) (part 0 (rows ax.now) area.old) }
    ensures { Listened ax.now.m.p (operator ax.now) left window
        (projection ax.now u.now) area.old result area.new }
{
    let first = listen_first(ax, u, area, left);
    listen(ax, u, area, left, window, first)
}

// ---- f(A)r

// q, of which L + 1 coefficients stand at `f`, in reverse order is f; r at the front becomes f(A)r. The answer is the products that this took.
fn conclude(ax: &Operator, area: &mut [u32], f: usize, degree: usize) -> Products
    requires degree { degree ≤ 8192 }
    requires leading { (3 * rows ax.now ≤ f) × (f + degree < length area.old) × (f ≤ 65536) × (at area.old f ≡ 1)
        × Vector ax.now.m.p (rows ax.now) (part 0 (rows ax.now) area.old) }
    ensures { (result ≡ products_with degree (operator ax.now))
        × Turned ax.now.m.p (operator ax.now) area.old f degree area.new }
{
    reverse(&mut area[f..f + (degree + 1)]);
    apply_within(ax, area, f, degree)
}

// Whether f(A)r was zero, and the products that the test took.
#[derive(Clone, Copy, Debug, PartialEq, Eq)]
struct Tested {
    zero: bool,
    done: Products,
}

// The test, with the f that the steps have: f(A)r of a copy of r, at the front of the area. If it is zero, r becomes it, and f stands where q stood; if
// not, r, its iterates and the recurrence's part are as they were.
fn test(ax: &Operator, area: &mut [u32], left: usize, degree: usize) -> Tested
    requires degree { (left ≤ 4096) × (degree ≤ 2 * left) }
    requires room { (6 * rows ax.now + (8 * left + 8) ≤ length area.old)
        × (at area.old (6 * rows ax.now + (2 * left + 2)) ≡ 1)
        × Vector ax.now.m.p (rows ax.now) (part (3 * rows ax.now) (rows ax.now) area.old) }
    ensures { (result.done ≡ products_with degree (operator ax.now))
        × Tried ax.now.m.p (operator ax.now) left degree area.old result.zero area.new }
{
    let n = ax.a.starts.len() - 1;
    let r = 3 * n;
    let f = 6 * n + (2 * left + 2);
    copy_within(area, r, 0, n);
    let done = conclude(ax, area, f, degree);
    let zero = is_zero(&area[..n]);
    if zero {
        copy_within(area, 0, r, n);
    } else {
        reverse(&mut area[f..f + (degree + 1)]);
    }
    Tested { zero, done }
}

// ---- the pass

// The end of a pass with all its terms, those that are missing first. `tried` are the products of a test that failed, if there was one.
fn finish(
    ax: &Operator,
    u: &Projection,
    area: &mut [u32],
    left: usize,
    heard: Heard,
    tried: Products,
) -> Pass
    requires words { Words (rows ax.now) u.now.vectors u.now.words.now }
    requires room { (0 < left) × Room (rows ax.now) left area.old
        × Vector ax.now.m.p (rows ax.now) (part 0 (rows ax.now) area.old) }
    requires listening { Listening ax.now.m.p (operator ax.now) left
        (projection ax.now u.now) area.old heard area.old }
    requires tried { (tried.made ≤ 8192) × (tried ≡ products_with tried.made (operator ax.now)) }
    ensures { Finished ax.now.m.p (operator ax.now) left
        (projection ax.now u.now) tried.made area.old result area.new }
{
    let all = listen(ax, u, area, left, 0, heard);
    let n = ax.a.starts.len() - 1;
    let degree = all.steps.L;
    let more = conclude(ax, area, 3 * n + (2 * left + 2), degree);
    let done = all.done + tried + more;
    Pass {
        left,
        degree,
        applications: done.made as u64,
        multiplied: done.multiplied,
    }
}

// A pass's factor with a window: the pass ends where f(A)r is found zero at its test, else it goes on to all terms.
pub(crate) fn factor_by_window(
    ax: &Operator,
    u: &Projection,
    area: &mut [u32],
    left: usize,
    window: u32,
) -> Pass
    requires left { (0 < left) × (left ≤ 4096) × Words (rows ax.now) u.now.vectors u.now.words.now }
    requires room { (6 * rows ax.now + (8 * left + 8) ≤ length area.old)
        × Vector ax.now.m.p (rows ax.now) (part (3 * rows ax.now) (rows ax.now) area.old) }
    ensures { Shortened ax.now.m.p (operator ax.now) window
        (projection ax.now u.now) left 0 (3 * rows ax.now)
        area.old result area.new }
{
    let r = 3 * (ax.a.starts.len() - 1);
    let heard = listen_until_due(ax, u, &mut area[r..], left, window);
    if heard.terms == 2 * left {
        return finish(ax, u, &mut area[r..], left, heard, Products::default());
    }
    let degree = heard.steps.L;
    let tested = test(ax, area, left, degree);
    if tested.zero {
        let done = heard.done + tested.done;
        return Pass {
            left,
            degree,
            applications: done.made as u64,
            multiplied: done.multiplied,
        };
    }
    finish(ax, u, &mut area[r..], left, heard, tested.done)
}
