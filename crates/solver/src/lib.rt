// The solver: passes with the random words and then the unit vectors until r is zero, and what F makes of b then. Its work slice is laid out as the
// pass has it (wiedemann::pass); the bill is written pass by pass, the vector and polynomial slices at the very end.
//
// The contracts cite the crate meaning (Solver: the run and its end; Calls: what a call refuses, answers and leaves), specs/Bill.antt (the bill, pass by
// pass), specs/Run.antt (what the work slice holds between two passes) and specs/Verdict.antt (what an answer says, and the third condition).
#![tactic(auto)]

mod system;

ghost use Rattle.std.specs.Prelude.{◌≡◌, true, [], ◌+◌, ◌-◌, ◌*◌, ◌≤◌, ◌<◌, length};
ghost use Rattle.meaning.specs.List.{at, table, is_zero};
ghost use Rattle.meaning.specs.Field.{minus, times};
ghost use Rattle.meaning.specs.Matrix.{apply};
ghost use Rattle.meaning.specs.Refusal.{words_taken};
ghost use Rattle.checks.specs.Matrix.{scaled_apply_refusal};
ghost use Rattle.meaning.specs.Solver.{begin};
ghost use Rattle.checks.specs.Products.{products_with, Few};
ghost use Rattle.checks.specs.Slices.{matrix_of};
ghost use Rattle.checks.specs.Valid.{Vector};
ghost use Rattle.modular.specs.Modulus.{Multiplies};
ghost use Rattle.laws.specs.Part.{part};
ghost use Rattle.checks.specs.Pass.{residual_at};
ghost use Rattle.wiedemann.specs.Pass.{held, pass_of};
ghost use Rattle.solver.specs.Bill.{entered};
ghost use Rattle.solver.specs.System.{plain, operator, rows};
ghost use Rattle.solver.specs.Run.{used, none, counted, Fits, Finished, Bounded, Closable};
ghost use Rattle.solver.specs.Verdict.{closing, Closed, Answered, Solves};

use checks::{Matrix, Products, all_ones, check_solve, residual_at};
use field::{Field, inverse_modulo};
use modular::diagonal::scale;
use modular::modulus::Modulus;
use modular::multiplier::Multiplier;
use refusal::Refusal;
use slices::{is_zero, write_padded};
use system::System;
use wiedemann::matrix::apply_scaled;
use wiedemann::pass::{Pass, make_pass};

// D, the passes, the applications and the entries that these multiplied.
#[derive(Clone, Copy, Debug, Default, PartialEq, Eq)]
pub struct Counts {
    pub degree: usize,
    pub passes: u64,
    pub applications: u64,
    pub multiplied: u64,
}

// What a run that is not refused answers. No 'failed' kind exists.
#[derive(Clone, Copy, Debug, PartialEq, Eq)]
pub enum Verdict {
    Solved(Counts),
    Singular(Counts),
}

// ---- slices

// −w times the multiplier's constant modulo p.
fn quotient(p: u32, k: Multiplier, w: u32) -> u32
    requires { (w < p) × Multiplies p k }
    ensures { result ≡ times p (minus p 0 w) k.constant }
{
    let negative = if w == 0 { 0 } else { p - w };
    k.times(p, negative)
}

// Each element w becomes −w × inverse.
fn divide(p: u32, inverse: u32, v: &mut [u32])
    requires { (inverse < p) × (p ≤ 2147483647) × Vector p (length v.old) v.old }
    ensures { v.new ≡ table (length v.old) (λ i. times p (minus p 0 (at v.old i)) inverse) }
{
    let k = Multiplier::of(Modulus::of(p), inverse);
    for i in 0..v.len() {
        v[i] = quotient(p, k, v[i]);
    }
}

// ---- the run

// r = b, F = 1, D = 0.
fn begin(b: &[u32], work: &mut [u32]) -> Counts
    requires { (length b.now ≤ 4096) × (16 * length b.now + 16 ≤ length work.old) }
    ensures { (result ≡ none) × (length work.new ≡ length work.old)
        × (held (length b.now) work.new 0 [] ≡ begin b.now) }
{
    let from = residual_at(b.len() as u32);
    let to = from + b.len();
    write_padded(b, &mut work[from..to]);
    work[0] = 1;
    Counts::default()
}

// Whether r is zero.
fn is_settled(n: usize, work: &[u32]) -> bool
    requires { (n ≤ 4096) × (16 * n + 16 ≤ length work.now) }
    ensures { result ≡ is_zero (part (residual_at n) n work.now) }
{
    let from = residual_at(n as u32);
    let to = from + n;
    is_zero(&work[from..to])
}

// Pass j, counted from 0, on the bill, if there is room for its left, degree and applications.
fn enter(bill: &mut [u32], j: usize, q: Pass)
    requires { (j ≤ 8192) × (q.left ≤ 4096) × (q.degree ≤ 8192) × (q.applications ≤ 24576) }
    ensures { bill.new ≡ entered bill.old j (pass_of q) }
{
    let left = q.left as u32;
    let degree = q.degree as u32;
    let applications = q.applications as u32;
    let from = 3 * j;
    let to = from + 3;
    if to <= bill.len() {
        write_padded(&[left, degree, applications], &mut bill[from..to]);
    }
}

// The counts after a pass.
fn count(c: Counts, q: Pass) -> Counts
    requires { Fits c q }
    ensures { result ≡ counted c q }
{
    Counts {
        degree: c.degree + q.degree,
        passes: c.passes + 1,
        applications: c.applications + q.applications,
        multiplied: c.multiplied + q.multiplied,
    }
}

// While r is not zero, a pass with the next projection. A pass of a run's own state is never refused.
fn run(s: &System, words: &[u32], window: u32, bill: &mut [u32], work: &mut [u32]) -> Counts
    requires { (words_taken (rows s.now) words.now ≡ true) × (16 * rows s.now + 16 ≤ length work.old) }
    ensures { Finished s.now.field.p (operator s.now) s.now.b.now words.now window bill.old bill.new work.new result }
{
    let n = s.a.starts.len() - 1;
    let mut c = begin(s.b, work);
    let mut j = 0;
    while !is_settled(n, work) {
        let answer = make_pass(s.field, s.a, s.scales, words, window, j, c.degree, work);
        let Ok(q) = answer else {
            return c;
        };
        c = count(c, q);
        enter(bill, j, q);
        j += 1;
    }
    c
}

// ---- the end

// The counts at the end, with the products that it took.
fn closed(c: Counts, done: Products) -> Counts
    requires { Bounded c × Few done }
    ensures { result ≡ closing c done }
{
    Counts {
        degree: c.degree,
        passes: c.passes,
        applications: c.applications + done.made as u64,
        multiplied: c.multiplied + done.multiplied,
    }
}

// G(AX)b into the vector slice; the answer is the products that it took. A run's own G is never refused.
fn apply_to_b(s: &System, g: &[u32], vector: &mut [u32], work: &mut [u32]) -> Products
    requires { scaled_apply_refusal s.now.field.p (plain s.now) s.now.scales.now g.now s.now.b.now vector.old work.old ≡ 0 }
    ensures { (result ≡ products_with (length g.now - 1) (operator s.now))
        × (vector.new ≡ apply s.now.field.p (operator s.now) g.now s.now.b.now) }
{
    apply_scaled(s.field, s.a, s.scales, g, s.b, vector, work).unwrap_or(Products::default())
}

// When r is zero: F into the polynomial slice, and what it makes of b into the vector slice. G is F without its first coefficient.
fn finish(
    s: &System,
    work: &mut [u32],
    c: Counts,
    vector: &mut [u32],
    polynomial: &mut [u32],
) -> Verdict
    requires closable { Closable s.now.field.p (operator s.now) work.old c }
    requires vector_len { (length vector.old ≡ rows s.now) × (length polynomial.old ≡ rows s.now + 1) }
    ensures { Closed s.now.field.p (operator s.now) s.now.b.now work.old c result vector.new polynomial.new }
{
    let d = c.degree;
    let end = d + 1;
    write_padded(&work[..end], polynomial);
    if d == 0 {
        write_padded(&[], vector);
        return Verdict::Solved(c);
    }
    let done = apply_to_b(s, &polynomial[1..end], vector, work);
    let constant = polynomial[0];
    if constant == 0 {
        return Verdict::Singular(closed(c, done));
    }
    let p = s.field.p;
    divide(p, inverse_modulo(p, constant), vector);
    Verdict::Solved(closed(c, done))
}

// The end of a run: what F makes of b, and X times it.
fn answer(
    s: &System,
    work: &mut [u32],
    c: Counts,
    vector: &mut [u32],
    polynomial: &mut [u32],
) -> Verdict
    requires closable { Closable s.now.field.p (operator s.now) work.old c }
    requires vector_len { (length vector.old ≡ rows s.now) × (length polynomial.old ≡ rows s.now + 1) }
    ensures { Answered s.now.field.p (plain s.now) s.now.scales.now s.now.b.now work.old c result vector.new polynomial.new }
{
    let verdict = finish(s, work, c, vector, polynomial);
    scale(Modulus::of(s.field.p), s.scales, vector);
    verdict
}

// How many scales a run is to multiply by: none where all of them are 1.
fn needed(scales: &[u32]) -> usize
    ensures { (result ≡ used scales.now) × (result ≤ length scales.now) }
{
    if all_ones(scales) { 0 } else { scales.len() }
}

// Solves Ax = b, or finds a vector that is not zero and that A takes to zero, by passes with the random words and then the unit vectors. The passes are on
// AX, X being the diagonal of the scales; no scales stand for ones. A pass may end early after `window` discrepancies that were 0; 0 asks for none. Whatever
// words and window are, kind, vector and polynomial are those of A, X and b. The bill gets three numbers for each pass, left, degree and applications, for as many passes as it has room for; it may be empty.
pub fn solve(
    field: Field,
    a: &Matrix,
    scales: &[u32],
    b: &[u32],
    words: &[u32],
    window: u32,
    vector: &mut [u32],
    polynomial: &mut [u32],
    bill: &mut [u32],
    work: &mut [u32],
) -> Result<Verdict, Refusal>
    ensures { Solves field.p (matrix_of a.now) scales.now b.now words.now window vector.old polynomial.old bill.old work.old result
        vector.new polynomial.new bill.new work.new }
{
    check_solve(
        field.p, a, scales, b, words, window, vector, polynomial, work,
    )?;
    let system = System {
        field,
        a,
        scales: &scales[..needed(scales)],
        b,
    };
    let c = run(&system, words, window, bill, work);
    Ok(answer(&system, work, c, vector, polynomial))
}
