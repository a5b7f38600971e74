// Av, the transposed product and g(A)v.
ghost use Rattle.std.specs.Prelude.{◌≡◌, ◌≢◌, ℕ, ◌-◌, ◌*◌, length};
ghost use Rattle.meaning.specs.Matrix.{Matrix as MatrixMeaning, matrix, entry_count, multiplied};
ghost use Rattle.meaning.specs.Matrix as meaning;
ghost use Rattle.meaning.specs.Calls.{product_refusal, product_after, product_count, apply_refusal, apply_after, apply_count};
ghost use Rattle.meaning.specs.Refusal.{unless_refused};
ghost use Rattle.checks.specs.Answers.{Writes};
ghost use Rattle.host.specs.Answers.{written_of};

use checks::{Matrix, Products};
use field::Field;
use refusal::Refusal;
use transposed::transposed;
use wiedemann::matrix::{apply, product};

#[repr(C)]
#[derive(Clone, Copy)]
pub struct Written {
    pub refusal: u32,
    pub multiplied: u64,
}

impl From<Result<Products, Refusal>> for Written {
    ghost from_gives = { λ answer numbers. (number k : ℕ) (A : MatrixMeaning) → Writes answer number k A
        → numbers ≡ written_of number (unless_refused number (multiplied k A) 0) };

    fn from(answer: Result<Products, Refusal>) -> Written {
        match answer {
            Ok(done) => Written {
                refusal: 0,
                multiplied: done.multiplied,
            },
            Err(refusal) => Written {
                refusal: u32::from(refusal),
                multiplied: 0,
            },
        }
    }
}

#[unsafe(no_mangle)]
pub extern "C" fn filzeur_product(
    p: u32,
    starts: &[u32],
    columns: &[u32],
    values: &[u32],
    v: &[u32],
    out: &mut [u32],
) -> Written
    ensures value { result ≡ written_of (product_refusal p (matrix starts.now columns.now values.now) v.now out.old)
        (product_count p (matrix starts.now columns.now values.now) v.now out.old) }
    ensures multiplied_value { result.multiplied ≡ unless_refused result.refusal (entry_count (matrix starts.now columns.now values.now)) 0 }
    ensures out_after { out.new ≡ product_after meaning.product p (matrix starts.now columns.now values.now) v.now out.old }
{
    let a = Matrix {
        starts,
        columns,
        values,
    };
    Written::from(product(Field { p }, &a, v, out))
}

#[unsafe(no_mangle)]
pub extern "C" fn filzeur_transposed(
    p: u32,
    starts: &[u32],
    columns: &[u32],
    values: &[u32],
    v: &[u32],
    out: &mut [u32],
) -> Written
    ensures value { result ≡ written_of (product_refusal p (matrix starts.now columns.now values.now) v.now out.old)
        (product_count p (matrix starts.now columns.now values.now) v.now out.old) }
    ensures multiplied_value { result.multiplied ≡ unless_refused result.refusal (entry_count (matrix starts.now columns.now values.now)) 0 }
    ensures out_after { out.new ≡ product_after meaning.transposed p (matrix starts.now columns.now values.now) v.now out.old }
{
    let a = Matrix {
        starts,
        columns,
        values,
    };
    Written::from(transposed(Field { p }, &a, v, out))
}

#[unsafe(no_mangle)]
pub extern "C" fn filzeur_apply(
    p: u32,
    starts: &[u32],
    columns: &[u32],
    values: &[u32],
    g: &[u32],
    v: &[u32],
    out: &mut [u32],
    work: &mut [u32],
) -> Written
    ensures value { result ≡ written_of
        (apply_refusal p (matrix starts.now columns.now values.now) g.now v.now out.old work.old)
        (apply_count p (matrix starts.now columns.now values.now) g.now v.now out.old work.old) }
    ensures multiplied_value { result.multiplied ≡ unless_refused result.refusal
        ((length g.now - 1) * entry_count (matrix starts.now columns.now values.now)) 0 }
    ensures out_after { out.new ≡ apply_after p (matrix starts.now columns.now values.now) g.now
        v.now out.old work.old }
    ensures work_unchanged { apply_refusal p (matrix starts.now columns.now values.now) g.now v.now
        out.old work.old ≢ 0 → work.new ≡ work.old }
{
    let a = Matrix {
        starts,
        columns,
        values,
    };
    Written::from(apply(Field { p }, &a, g, v, out, work))
}
