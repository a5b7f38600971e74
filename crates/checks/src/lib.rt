// "Where a system stops": what a call of the library is refused for. Each check covers the whole input before the next, and every public function here
// answers for all inputs: a test, or the first check that turns the input down.
// The tests of entries and elements go through to the end and join by `&`: a loop without branches is compiled to vector instructions.
//
// The contracts cite the crate meaning (Refusal: the checks; Calls: their order for each call).
#![tactic(auto)]

pub mod matrix;

ghost use Rattle.std.specs.Prelude.{◌≡◌, ◌&&◌, [], ℕ, Bool, ◌+◌, ◌-◌, ◌≤◌, ◌<◌, eqb, leb, length};
ghost use Rattle.meaning.specs.List.{at, all, all_from, every};
ghost use Rattle.meaning.specs.Matrix.{matrix, size};
ghost use Rattle.meaning.specs.Refusal.{words_taken, first, elements, size_taken, starts_taken, columns_taken, value_taken, scale_count_taken, scaled_checks, matrix_checks};
ghost use Rattle.meaning.specs.Calls.{system_checks, product_refusal, takes_refusal, recurrence_refusal, solver_refusal};
ghost use Rattle.refusal.specs.Number.{refused_by};
ghost use Rattle.checks.specs.Slices.{matrix_of};
ghost use Rattle.checks.specs.Pass.{residual_at, state_checks, pass_refusal};
ghost use Rattle.checks.specs.Products.{wrapped};
ghost use Rattle.checks.specs.Matrix.{column_taken, rises, Ordered, scaled_apply_refusal};

use field::is_modulus;
pub use matrix::Matrix;
use refusal::Refusal;
use std::ops::Add;

// Products with a matrix: how many were made, and how many of its entries they multiplied.
#[derive(Clone, Copy, Debug, Default, PartialEq, Eq)]
pub struct Products {
    pub made: usize,
    pub multiplied: u64,
}

// Some products and some more: for every two counts modulo 2^64, which is their sum for as many as a pass makes (`wrapped_few`).
impl Add for Products {
    type Output = Self;

    ghost add_gives = { λ a b r. r ≡ wrapped a b };

    fn add(self, more: Self) -> Self {
        Products {
            made: self.made.wrapping_add(more.made),
            multiplied: self.multiplied.wrapping_add(more.multiplied),
        }
    }
}

// Whether the test holds of each element. It goes through to the end and joins by `&`: a loop without branches is compiled to vector instructions.
fn every<F: Fn(u32) -> bool>(v: &[u32], test: F) -> bool
    requires { F.IsAlwaysCallable test }
    ensures { (holds : ℕ → Bool) → ((x : ℕ) (told : Bool) → F.post test x told → told ≡ holds x) → result ≡ every holds v.now }
{
    let mut all = true;
    for x in v {
        all &= test(*x);
    }
    all
}

// 4: the size, 0 to 4,096, and some starts.
fn size_taken(starts: &[u32]) -> bool
    ensures { result ≡ size_taken (matrix starts.now [] []) }
{
    (starts.len() >= 1) & (starts.len() <= 4097)
}

// No start is above the next.
fn rising(starts: &[u32]) -> bool
    requires { 0 < length starts.now }
    ensures { result ≡ all (length starts.now - 1) (λ i. leb (at starts.now i) (at starts.now (i + 1))) }
{
    let mut rise = true;
    for i in 0..starts.len() - 1 {
        rise &= starts[i] <= starts[i + 1];
    }
    rise
}

// 5: the starts and the number of entries.
fn starts_taken(a: &Matrix) -> bool
    requires { 0 < length a.now.starts.now }
    ensures { result ≡ starts_taken (matrix_of a.now) }
{
    let starts = a.starts;
    let entries = a.columns.len();
    (starts[0] == 0)
        & rising(starts)
        & (starts[starts.len() - 1] as usize == entries)
        & (entries == a.values.len())
        & (entries <= 65536)
}

// 5 with the scales' number: none, or n.
fn shape_taken(a: &Matrix, scales: &[u32]) -> bool
    requires { 0 < length a.now.starts.now }
    ensures { result ≡ starts_taken (matrix_of a.now) && scale_count_taken (size (matrix_of a.now)) (length scales.now) }
{
    starts_taken(a) & ((scales.len() == 0) | (scales.len() == a.starts.len() - 1))
}

// The columns from `from` to `last` rise strictly.
fn columns_rise(from: usize, last: usize, columns: &[u32]) -> bool
    requires { (from ≤ last) × (last < length columns.now) }
    ensures { result ≡ all_from from last (rises columns.now) }
{
    let mut rise = true;
    for k in from..last {
        rise &= columns[k] < columns[k + 1];
    }
    rise
}

// 6 for a row. Its last column is its greatest if they rise, so no other one is held against n.
fn row_taken(n: usize, from: usize, end: usize, columns: &[u32]) -> bool
    requires { (from ≤ end) × (end ≤ length columns.now) }
    ensures { result ≡ all_from from end (column_taken n end columns.now) }
{
    if from == end {
        return true;
    }
    columns_rise(from, end - 1, columns) & ((columns[end - 1] as usize) < n)
}

// 6: the columns, row after row.
fn columns_taken(starts: &[u32], columns: &[u32]) -> bool
    requires { Ordered starts.now (length columns.now) }
    ensures { result ≡ columns_taken (matrix starts.now columns.now []) }
{
    let n = starts.len() - 1;
    let mut taken = true;
    for i in 0..n {
        taken &= row_taken(n, starts[i] as usize, starts[i + 1] as usize, columns);
    }
    taken
}

// Each value is 1 to p − 1.
fn values_taken(p: u32, values: &[u32]) -> bool
    ensures { result ≡ every (value_taken p) values.now }
{
    every(values, |value| (value >= 1) & (value < p))
}

// 7: the values of the entries, and the scales.
fn all_values_taken(p: u32, values: &[u32], scales: &[u32]) -> bool
    ensures { result ≡ every (value_taken p) values.now && every (value_taken p) scales.now }
{
    values_taken(p, values) & values_taken(p, scales)
}

// Whether every scale is 1, or there is none: such scales change nothing.
pub fn all_ones(scales: &[u32]) -> bool
    ensures { result ≡ every (λ a. eqb a 1) scales.now }
{
    every(scales, |scale| scale == 1)
}

// 9: every element is below p.
#[tactic(auto, unfolding(meaning::specs::Refusal::elements))]
pub fn are_elements(p: u32, v: &[u32]) -> bool
    ensures { result ≡ elements p v.now }
{
    every(v, |x| x < p)
}

// 3 to 7, in their order: the first that turns the field, the matrix or its scales down.
pub fn check_scaled(p: u32, a: &Matrix, scales: &[u32]) -> Result<(), Refusal>
    ensures { refused_by result ≡ first (scaled_checks p (matrix_of a.now) scales.now) }
{
    if !is_modulus(p) {
        return Err(Refusal::Modulus);
    }
    if !size_taken(a.starts) {
        return Err(Refusal::Size);
    }
    if !shape_taken(a, scales) {
        return Err(Refusal::Shape);
    }
    if !columns_taken(a.starts, a.columns) {
        return Err(Refusal::Places);
    }
    if !all_values_taken(p, a.values, scales) {
        return Err(Refusal::Values);
    }
    Ok(())
}

// The same of a field and a matrix alone.
pub fn check_matrix(p: u32, a: &Matrix) -> Result<(), Refusal>
    ensures { refused_by result ≡ first (matrix_checks p (matrix_of a.now)) }
{
    check_scaled(p, a, &[])
}

// 3 to 9 for a matrix, its scales and a vector.
pub fn check_system(p: u32, a: &Matrix, scales: &[u32], b: &[u32]) -> Result<(), Refusal>
    ensures { refused_by result ≡ first (system_checks p (matrix_of a.now) scales.now b.now) }
{
    check_scaled(p, a, scales)?;
    if b.len() != a.starts.len() - 1 {
        return Err(Refusal::Lengths);
    }
    if !are_elements(p, b) {
        return Err(Refusal::Elements);
    }
    Ok(())
}

// What a product with v into out is refused for.
pub fn check_product(p: u32, a: &Matrix, v: &[u32], out: &[u32]) -> Result<(), Refusal>
    ensures { refused_by result ≡ product_refusal p (matrix_of a.now) v.now out.now }
{
    check_system(p, a, &[], v)?;
    if out.len() != a.starts.len() - 1 {
        return Err(Refusal::Room);
    }
    Ok(())
}

// What g(AX)v into out is refused for; without scales that is g(A)v.
pub fn check_apply(
    p: u32,
    a: &Matrix,
    scales: &[u32],
    g: &[u32],
    v: &[u32],
    out: &[u32],
    work: &[u32],
) -> Result<(), Refusal>
    ensures { refused_by result ≡ scaled_apply_refusal p (matrix_of a.now) scales.now g.now v.now out.now work.now }
{
    check_scaled(p, a, scales)?;
    let n = a.starts.len() - 1;
    if !((g.len() >= 1) & (g.len() <= n + 1) & (v.len() == n)) {
        return Err(Refusal::Lengths);
    }
    if !(are_elements(p, g) & are_elements(p, v)) {
        return Err(Refusal::Elements);
    }
    if !((out.len() == n) & (work.len() >= 2 * n)) {
        return Err(Refusal::Room);
    }
    Ok(())
}

// What the check that A takes x to b is refused for.
pub fn check_takes(p: u32, a: &Matrix, x: &[u32], b: &[u32]) -> Result<(), Refusal>
    ensures { refused_by result ≡ takes_refusal p (matrix_of a.now) x.now b.now }
{
    check_matrix(p, a)?;
    let n = a.starts.len() - 1;
    if !((x.len() == n) & (b.len() == n)) {
        return Err(Refusal::Lengths);
    }
    if !(are_elements(p, x) & are_elements(p, b)) {
        return Err(Refusal::Elements);
    }
    Ok(())
}

// What a shortest recurrence is refused for.
pub fn check_recurrence(p: u32, s: &[u32], polynomial: &[u32], work: &[u32]) -> Result<(), Refusal>
    ensures { refused_by result ≡ recurrence_refusal p s.now polynomial.now work.now }
{
    if !is_modulus(p) {
        return Err(Refusal::Modulus);
    }
    if s.len() > 8192 {
        return Err(Refusal::Lengths);
    }
    if !are_elements(p, s) {
        return Err(Refusal::Elements);
    }
    if !((polynomial.len() == s.len() + 1) & (work.len() >= 4 * s.len() + 8)) {
        return Err(Refusal::Room);
    }
    Ok(())
}

// 10: the words are a multiple of n, and at most 64 × n; no rows, no words.
pub fn words_taken(n: usize, words: &[u32]) -> bool
    ensures { result ≡ words_taken n words.now }
{
    if n == 0 {
        return words.len() == 0;
    }
    words.len() % n == 0 && words.len() / n <= 64
}

// What a run of the solver is refused for.
pub fn check_solve(
    p: u32,
    a: &Matrix,
    scales: &[u32],
    b: &[u32],
    words: &[u32],
    window: u32,
    vector: &[u32],
    polynomial: &[u32],
    work: &[u32],
) -> Result<(), Refusal>
    ensures { refused_by result ≡ solver_refusal p (matrix_of a.now) scales.now b.now words.now window vector.now polynomial.now work.now }
{
    check_system(p, a, scales, b)?;
    let n = a.starts.len() - 1;
    if !words_taken(n, words) {
        return Err(Refusal::Words);
    }
    if window > 64 {
        return Err(Refusal::Window);
    }
    if !((vector.len() == n) & (polynomial.len() == n + 1) & (work.len() >= 16 * n + 16)) {
        return Err(Refusal::Room);
    }
    Ok(())
}

// Where r begins in a run's work slice: behind the places that F may take and those of a pass's test (wiedemann::pass).
pub fn residual_at(n: u32) -> usize
    ensures { result ≡ residual_at n }
{
    5 * (n as usize) + 1
}

// 8, 10, 11 and 9 of a run's state: D is below n, the words, the work slice, and F and r, which can be read then.
fn check_state(p: u32, n: usize, d: usize, words: &[u32], work: &[u32]) -> Result<(), Refusal>
    requires { n ≤ 4096 }
    ensures { refused_by result ≡ first (state_checks p n d words.now work.now) }
{
    if n <= d {
        return Err(Refusal::Lengths);
    }
    if !words_taken(n, words) {
        return Err(Refusal::Words);
    }
    if work.len() < 16 * n + 16 {
        return Err(Refusal::Room);
    }
    let from = residual_at(n as u32);
    if !(are_elements(p, &work[..d + 1]) & are_elements(p, &work[from..from + n])) {
        return Err(Refusal::Elements);
    }
    Ok(())
}

// What one pass of a run is refused for.
pub fn check_pass(
    p: u32,
    a: &Matrix,
    scales: &[u32],
    words: &[u32],
    d: usize,
    work: &[u32],
) -> Result<(), Refusal>
    ensures { refused_by result ≡ pass_refusal p (matrix_of a.now) scales.now words.now d work.now }
{
    check_scaled(p, a, scales)?;
    check_state(p, a.starts.len() - 1, d, words, work)
}
