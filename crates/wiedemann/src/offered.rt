// Two checks of a vector that anyone offers: does A take x to b, and is w not zero and taken to zero. Neither needs the solver. A check makes one whole
// product, whatever the vector is and wherever it fails.
ghost use Rattle.std.specs.Prelude.{◌≡◌, eqb};
ghost use Rattle.meaning.specs.List.{at, all, is_zero};
ghost use Rattle.meaning.specs.Matrix.{product, multiplied};
ghost use Rattle.checks.specs.Slices.{matrix_of};
ghost use Rattle.wiedemann.specs.Operator.{plain, rows};
ghost use Rattle.meaning.specs.Calls.{takes_refusal, takes_answer, is_null_refusal, is_null_answer};
ghost use Rattle.checks.specs.Valid.{Vector};
ghost use Rattle.wiedemann.specs.Answers.{Decides};

use crate::matrix::{entries_to, row};
use crate::operator::Operator;
use checks::{Matrix, check_system, check_takes};
use field::Field;
use modular::modulus::Modulus;
use refusal::Refusal;
use slices::{element, is_zero};

// What a check of an offered vector found: whether it holds, and how many entries the product multiplied.
#[derive(Clone, Copy, Debug, PartialEq, Eq)]
pub struct Offered {
    pub holds: bool,
    pub multiplied: u64,
}

// Every element of Ax is that of b, which has zeros after its end.
fn agrees(ax: &Operator, x: &[u32], b: &[u32]) -> Offered
    requires { Vector ax.now.m.p (rows ax.now) x.now }
    ensures { (result.multiplied ≡ multiplied 1 (plain ax.now))
        × (result.holds ≡ all (rows ax.now) (λ i. eqb (at (product ax.now.m.p (plain ax.now) x.now) i) (at b.now i))) }
{
    let m = ax.m;
    let starts = ax.a.starts;
    let columns = ax.a.columns;
    let values = ax.a.values;
    let n = starts.len() - 1;
    let mut holds = true;
    let mut from = starts[0] as usize;
    for i in 0..n {
        let to = starts[i + 1] as usize;
        let sum = row(0, from, to, columns, values, x);
        holds &= sum.residue(m) == element(b, i);
        from = to;
    }
    Offered {
        holds,
        multiplied: entries_to(starts, from),
    }
}

// A takes w to zero.
fn vanishes(ax: &Operator, w: &[u32]) -> Offered
    requires { Vector ax.now.m.p (rows ax.now) w.now }
    ensures { (result.multiplied ≡ multiplied 1 (plain ax.now)) × (result.holds ≡ is_zero (product ax.now.m.p (plain ax.now) w.now)) }
{
    agrees(ax, w, &[])
}

// Whether Ax = b.
pub fn takes(field: Field, a: &Matrix, x: &[u32], b: &[u32]) -> Result<Offered, Refusal>
    ensures { Decides result (takes_refusal field.p (matrix_of a.now) x.now b.now) (takes_answer field.p (matrix_of a.now) x.now b.now)
        (matrix_of a.now) }
{
    check_takes(field.p, a, x, b)?;
    let plain = Operator {
        m: Modulus::of(field.p),
        a,
        scales: &[],
    };
    Ok(agrees(&plain, x, b))
}

// Whether w is not zero and A takes it to zero.
#[tactic(auto, unfolding(meaning::specs::Calls::is_null_refusal))]
pub fn is_null(field: Field, a: &Matrix, w: &[u32]) -> Result<Offered, Refusal>
    ensures { Decides result (is_null_refusal field.p (matrix_of a.now) w.now) (is_null_answer field.p (matrix_of a.now) w.now)
        (matrix_of a.now) }
{
    check_system(field.p, a, &[], w)?;
    let plain = Operator {
        m: Modulus::of(field.p),
        a,
        scales: &[],
    };
    let found = vanishes(&plain, w);
    Ok(Offered {
        holds: !is_zero(w) & found.holds,
        multiplied: found.multiplied,
    })
}
