// The solver.
ghost use Rattle.std.specs.Prelude.{◌≡◌, ℕ};
ghost use Rattle.meaning.specs.Matrix.{matrix};
ghost use Rattle.meaning.specs.Solver.{Outcome};
ghost use Rattle.solver.specs.Verdict.{Says};
ghost use Rattle.host.specs.Answers.{verdict_of};
ghost use Rattle.host.specs.Runs.{Answered};

use checks::Matrix;
use field::Field;
use refusal::Refusal;
use solver::{Counts, solve};

#[repr(C)]
#[derive(Clone, Copy)]
pub struct Verdict {
    pub refusal: u32,
    // 1 solved, 2 singular
    pub kind: u32,
    pub degree: u64,
    pub passes: u64,
    pub applications: u64,
    pub multiplied: u64,
}

// What a run that was not refused answers.
fn counted(kind: u32, c: Counts) -> Verdict
    ensures { result ≡ record { refusal = 0; kind = kind; degree = c.degree; passes = c.passes; applications = c.applications; multiplied = c.multiplied } }
{
    Verdict {
        refusal: 0,
        kind,
        degree: c.degree as u64,
        passes: c.passes,
        applications: c.applications,
        multiplied: c.multiplied,
    }
}

impl From<Result<solver::Verdict, Refusal>> for Verdict {
    ghost from_gives = { λ answer numbers. (number : ℕ) (o : Outcome) → Says answer number o → numbers ≡ verdict_of number o };

    fn from(answer: Result<solver::Verdict, Refusal>) -> Verdict {
        match answer {
            Ok(solver::Verdict::Solved(c)) => counted(1, c),
            Ok(solver::Verdict::Singular(c)) => counted(2, c),
            Err(refusal) => Verdict {
                refusal: u32::from(refusal),
                kind: 0,
                degree: 0,
                passes: 0,
                applications: 0,
                multiplied: 0,
            },
        }
    }
}

// Two calls on one system answer the same kind and leave the same vector and polynomial, whatever their words and windows (specs/Runs.antt, same_numbers).
#[unsafe(no_mangle)]
pub extern "C" fn filzeur_solve(
    p: u32,
    starts: &[u32],
    columns: &[u32],
    values: &[u32],
    scales: &[u32],
    b: &[u32],
    words: &[u32],
    window: u32,
    vector: &mut [u32],
    polynomial: &mut [u32],
    bill: &mut [u32],
    work: &mut [u32],
) -> Verdict
    ensures { Answered p (matrix starts.now columns.now values.now) scales.now
        b.now words.now window vector.old polynomial.old bill.old work.old result
        vector.new polynomial.new bill.new work.new }
{
    let a = Matrix {
        starts,
        columns,
        values,
    };
    Verdict::from(solve(
        Field { p },
        &a,
        scales,
        b,
        words,
        window,
        vector,
        polynomial,
        bill,
        work,
    ))
}
