// The transposed product of a sparse matrix, row after row. The solver has no use for it, so it stands apart from the kernel.
#![tactic(auto)]

ghost use Rattle.std.specs.Prelude.{◌≡◌, ℕ, ◌-◌, ◌≤◌, ◌<◌, length};
ghost use Rattle.meaning.specs.List.{at};
ghost use Rattle.meaning.specs.Matrix.{transposed};
ghost use Rattle.meaning.specs.Calls.{product_refusal, product_after};
ghost use Rattle.checks.specs.Answers.{Writes};
ghost use Rattle.checks.specs.Products.{products_with};
ghost use Rattle.checks.specs.Slices.{matrix_of};
ghost use Rattle.checks.specs.Valid.{Valid, Vector};
ghost use Rattle.modular.specs.Modulus.{Modular};
ghost use Rattle.transposed.specs.Transposed.{scattered};

use checks::{Matrix, Products, check_product};
use field::Field;
use modular::modulus::Modulus;
use modular::multiplier::Multiplier;
use refusal::Refusal;
use slices::clear;

// v[i] × the value of each entry added to out at its column: what row i adds to the transposed product. Its entries share one multiplier.
fn scatter(
    m: Modulus,
    i: usize,
    from: usize,
    to: usize,
    columns: &[u32],
    values: &[u32],
    v: &[u32],
    out: &mut [u32],
)
    requires i_in_bounds { (i < length v.now) × Vector m.p (length out.old) v.now × Modular m × (from ≤ to) × (to ≤ length columns.now)
        × (length columns.now ≡ length values.now) × Vector m.p (length out.old) out.old }
    requires by_index { (k : ℕ) → k < length columns.now → at columns.now k < length out.old }
    ensures { out.new
        ≡ scattered m.p (at v.now i) from to columns.now values.now out.old }
{
    let multiplier = Multiplier::of(m, v[i]);
    for k in from..to {
        let j = columns[k] as usize;
        out[j] = multiplier.added(m.p, values[k], out[j]);
    }
}

// The transposed product into out, row after row. The answer is one product, with the entries that it multiplied, by the rows' bounds.
fn transposed_into(m: Modulus, a: &Matrix, v: &[u32], out: &mut [u32]) -> Products
    requires valid { Valid m.p (matrix_of a.now) × Modular m }
    requires out_len { (length out.old ≡ length a.now.starts.now - 1) × Vector m.p (length a.now.starts.now - 1) v.now }
    ensures { (result ≡ products_with 1 (matrix_of a.now)) × (out.new ≡ transposed m.p (matrix_of a.now) v.now) }
{
    clear(out);
    let starts = a.starts;
    let mut from = starts[0] as usize;
    for i in 0..v.len() {
        let to = starts[i + 1] as usize;
        scatter(m, i, from, to, a.columns, a.values, v, out);
        from = to;
    }
    let multiplied = from - starts[0] as usize;
    Products {
        made: 1,
        multiplied: multiplied as u64,
    }
}

// The transposed product into out.
pub fn transposed(field: Field, a: &Matrix, v: &[u32], out: &mut [u32]) -> Result<Products, Refusal>
    ensures writes { Writes result (product_refusal field.p (matrix_of a.now) v.now out.old) 1 (matrix_of a.now) }
    ensures out_after { out.new ≡ product_after transposed field.p (matrix_of a.now) v.now out.old }
{
    check_product(field.p, a, v, out)?;
    let m = Modulus::of(field.p);
    Ok(transposed_into(m, a, v, out))
}
