// Sparse matrices: the product of a row, and what is made of it.
ghost use Rattle.std.specs.Prelude.{◌≡◌, ◌≢◌, ◌+◌, ◌-◌, ◌≤◌, ◌<◌, length};
ghost use Rattle.meaning.specs.List.{at, sum_from, table};
ghost use Rattle.meaning.specs.Field.{times};
ghost use Rattle.modular.specs.Modulus.{Modular};
ghost use Rattle.modular.specs.Total.{number};
ghost use Rattle.meaning.specs.Matrix.{product, apply};
ghost use Rattle.checks.specs.Slices.{matrix_of};
ghost use Rattle.wiedemann.specs.Operator.{plain, operator, rows};
ghost use Rattle.meaning.specs.Calls.{product_refusal, product_after, apply_refusal, apply_after};
ghost use Rattle.checks.specs.Matrix.{scaled_apply_refusal, scaled_apply_after};
ghost use Rattle.checks.specs.Valid.{Entries, term, Vector};
ghost use Rattle.wiedemann.specs.Horner.{step, step_at};
ghost use Rattle.laws.specs.Written.{Written};
ghost use Rattle.laws.specs.Part.{part};
ghost use Rattle.wiedemann.specs.Region.{Regions};
ghost use Rattle.checks.specs.Answers.{Writes};
ghost use Rattle.checks.specs.Products.{products_with};

use crate::operator::Operator;
use crate::sums::sum_by;
use checks::{Matrix, Products, check_apply, check_product};
use field::Field;
use modular::diagonal::scale;
use modular::modulus::Modulus;
use modular::multiplier::Multiplier;
use modular::sums::{Total, times};
use refusal::Refusal;

// The product of entry k's value with the element of v at its column.
fn entry(k: usize, columns: &[u32], values: &[u32], v: &[u32]) -> u64
    requires entries { Entries columns.now values.now v.now }
    requires k_in_bounds { k < length columns.now }
    ensures { (result ≡ term columns.now values.now v.now k) × (result ≤ 4611686009837453316) }
{
    let j = columns[k] as usize;
    times(values[k], v[j])
}

// start plus the products of the entries from `from` up to but not including `to`, not reduced: four of them fit a word. So small that LLVM inlines it
// into a loop over rows.
pub(crate) fn row(
    start: u64,
    from: usize,
    to: usize,
    columns: &[u32],
    values: &[u32],
    v: &[u32],
) -> Total
    requires { Entries columns.now values.now v.now × (from ≤ to) × (to ≤ length columns.now) }
    ensures { (number result ≡ start + sum_from from to (term columns.now values.now v.now))
        × (result.high < 4294967296) }
{
    let total = Total {
        low: start,
        high: 0,
    };
    sum_by::<4, _>(total, from, to, move |k| entry(k, columns, values, v))
}

// How many entries the rows have up to where one of them ends: what a loop over the rows has gone through there. It is taken from the rows' bounds, so
// that no row pays for it.
pub(crate) fn entries_to(starts: &[u32], end: usize) -> u64
    requires { (0 < length starts.now) × (at starts.now 0 ≤ end) }
    ensures { result ≡ end - at starts.now 0 }
{
    (end - starts[0] as usize) as u64
}

// Horner's step: c × x plus the product with v, into out. It is the product if c is 0. A row's end is the next row's start. The answer is one
// product, with the entries that it multiplied, by the rows' bounds.
pub(crate) fn step(ax: &Operator, c: u32, x: &[u32], v: &[u32], out: &mut [u32]) -> Products
    requires { (length out.old ≡ rows ax.now) × (length x.now ≡ rows ax.now) × Vector ax.now.m.p (rows ax.now) v.now }
    ensures { (result ≡ products_with 1 (plain ax.now)) × (out.new ≡ step ax.now.m.p (plain ax.now) c x.now v.now) }
{
    let m = ax.m;
    let starts = ax.a.starts;
    let columns = ax.a.columns;
    let values = ax.a.values;
    let rows = starts.len() - 1;
    let mut from = starts[0] as usize;
    for i in 0..rows {
        let to = starts[i + 1] as usize;
        out[i] = row(times(c, x[i]), from, to, columns, values, v).residue(m);
        from = to;
    }
    Products {
        made: 1,
        multiplied: entries_to(starts, from),
    }
}

// Horner's step within one slice: c × the part from `origin` on plus the product with the part from `source` on, into the part from `target` on.
// The answer is that one product.
pub(crate) fn step_within(
    ax: &Operator,
    c: u32,
    work: &mut [u32],
    origin: usize,
    source: usize,
    target: usize,
) -> Products
    requires { Regions ax.now.m.p (rows ax.now) origin source target work.old }
    ensures { (result ≡ products_with 1 (plain ax.now))
        × Written work.old target (rows ax.now)
        (step_at ax.now.m.p (plain ax.now) c (part origin (rows ax.now) work.old) (part source (rows ax.now) work.old))
        work.new }
{
    let m = ax.m;
    let starts = ax.a.starts;
    let columns = ax.a.columns;
    let values = ax.a.values;
    let n = starts.len() - 1;
    let mut from = starts[0] as usize;
    for i in 0..n {
        let to = starts[i + 1] as usize;
        let start = times(c, work[origin + i]);
        work[target + i] = row(start, from, to, columns, values, &work[source..source + n]).residue(
            m,
        );
        from = to;
    }
    Products {
        made: 1,
        multiplied: entries_to(starts, from),
    }
}

// c × v into out.
fn multiple(m: Modulus, c: u32, v: &[u32], out: &mut [u32])
    requires { (c < m.p) × Modular m × (length out.old ≡ length v.now) }
    ensures { out.new ≡ table (length v.now) (λ i. times m.p c (at v.now i)) }
{
    let multiplier = Multiplier::of(m, c);
    for i in 0..v.len() {
        out[i] = multiplier.times(m.p, v[i]);
    }
}

// Horner's step with AX: v is scaled in its place, and its product with A then is AX's with what it was.
fn scaled_step(ax: &Operator, c: u32, x: &[u32], v: &mut [u32], out: &mut [u32]) -> Products
    requires { (length out.old ≡ rows ax.now) × (length x.now ≡ rows ax.now) × Vector ax.now.m.p (rows ax.now) v.old }
    ensures { (result ≡ products_with 1 (operator ax.now)) × (out.new ≡ step ax.now.m.p (operator ax.now) c x.now v.old)
        × (length v.new ≡ length v.old) }
{
    scale(ax.m, ax.scales, v);
    step(ax, c, x, v, out)
}

// g(AX)v into out by Horner's rule, by turns into work and into out, which has what is made of the even coefficients; what a product reads is scaled
// before it. Nothing is copied. The answer is the products that it made: one for each coefficient after the first.
pub(crate) fn horner(
    ax: &Operator,
    g: &[u32],
    v: &[u32],
    out: &mut [u32],
    work: &mut [u32],
) -> Products
    requires { (length out.old ≡ rows ax.now) × (length work.old ≡ rows ax.now) × Vector ax.now.m.p (rows ax.now) v.now
        × (0 < length g.now) × (length g.now ≤ 4097) × Vector ax.now.m.p (length g.now) g.now }
    ensures { (result ≡ products_with (length g.now - 1) (operator ax.now)) × (out.new ≡ apply ax.now.m.p (operator ax.now) g.now v.now) }
{
    let last = g.len() - 1;
    let mut done = Products::default();
    if last % 2 == 0 {
        multiple(ax.m, g[last], v, out);
    } else {
        multiple(ax.m, g[last], v, work);
    }
    for i in (0..last).rev() {
        let more = if i % 2 == 0 {
            scaled_step(ax, g[i], v, work, out)
        } else {
            scaled_step(ax, g[i], v, out, work)
        };
        done = done + more;
    }
    done
}

// Av into out.
pub fn product(field: Field, a: &Matrix, v: &[u32], out: &mut [u32]) -> Result<Products, Refusal>
    ensures writes { Writes result (product_refusal field.p (matrix_of a.now) v.now out.old) 1 (matrix_of a.now) }
    ensures out_after { out.new ≡ product_after product field.p (matrix_of a.now) v.now out.old }
{
    check_product(field.p, a, v, out)?;
    let plain = Operator {
        m: Modulus::of(field.p),
        a,
        scales: &[],
    };
    Ok(step(&plain, 0, v, v, out))
}

// g(AX)v into out.
pub fn apply_scaled(
    field: Field,
    a: &Matrix,
    scales: &[u32],
    g: &[u32],
    v: &[u32],
    out: &mut [u32],
    work: &mut [u32],
) -> Result<Products, Refusal>
    ensures writes { Writes result (scaled_apply_refusal field.p (matrix_of a.now) scales.now g.now v.now out.old work.old)
        (length g.now - 1) (matrix_of a.now) }
    ensures out_after { out.new ≡ scaled_apply_after field.p (matrix_of a.now) scales.now g.now v.now out.old work.old }
    ensures work_unchanged { scaled_apply_refusal field.p (matrix_of a.now) scales.now g.now v.now out.old work.old ≢ 0
        → work.new ≡ work.old }
{
    check_apply(field.p, a, scales, g, v, out, work)?;
    let ax = Operator {
        m: Modulus::of(field.p),
        a,
        scales,
    };
    Ok(horner(&ax, g, v, out, &mut work[..v.len()]))
}

// g(A)v into out.
pub fn apply(
    field: Field,
    a: &Matrix,
    g: &[u32],
    v: &[u32],
    out: &mut [u32],
    work: &mut [u32],
) -> Result<Products, Refusal>
    ensures writes { Writes result (apply_refusal field.p (matrix_of a.now) g.now v.now out.old work.old)
        (length g.now - 1) (matrix_of a.now) }
    ensures out_after { out.new ≡ apply_after field.p (matrix_of a.now) g.now v.now out.old work.old }
    ensures work_unchanged { apply_refusal field.p (matrix_of a.now) g.now v.now out.old work.old ≢ 0 → work.new ≡ work.old }
{
    apply_scaled(field, a, &[], g, v, out, work)
}
