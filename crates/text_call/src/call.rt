// The call on its arrays: the reader, the solver, the answer's writer.
ghost use Rattle.std.specs.Prelude.{◌≡◌, ◌*◌, ◌≤◌, ◌<◌, length};
ghost use Rattle.meaning.specs.Calls.{text_refusal};
ghost use Rattle.refusal.specs.Number.{refused_by};
ghost use Rattle.line_writer.specs.Written.{Wrote};
ghost use Rattle.checks.specs.Slices.{matrix_of};
ghost use Rattle.text_call.specs.Answers.{answered};
ghost use Rattle.text_call.specs.Checks.{Called};
ghost use Rattle.text_call.specs.Loaded.{Taken, run_text, verdict_text, degree_of, passes_of};

use crate::answer::{Found, put_answer};
use checks::Matrix;
use field::Field;
use refusal::Refusal;
use solver::{Verdict, solve};
use system_reader::read;

// The answer's text of a verdict.
fn put_verdict(answer: &mut [u8], verdict: Verdict, found: &Found) -> usize
    requires { (degree_of verdict < length found.now.polynomial.now) × (3 * passes_of verdict ≤ length found.now.bill.now) }
    ensures { Wrote answer.old 0 (verdict_text verdict found.now.bill.now found.now.polynomial.now found.now.vector.now) result answer.new }
{
    match verdict {
        Verdict::Solved(c) => put_answer(answer, b"answer\tsolved", b"x", c, found),
        Verdict::Singular(c) => put_answer(answer, b"answer\tsingular", b"w", c, found),
    }
}

// The answer's text of a system. The solver never refuses one that the reader took.
fn put_solved(
    p: u32,
    a: &Matrix,
    scales: &[u32],
    right: &[u32],
    answer: &mut [u8],
) -> Result<usize, Refusal>
    requires { Taken p (matrix_of a.now) scales.now right.now }
    ensures taken { refused_by result ≡ 0 }
    ensures text { Wrote answer.old 0 (run_text p (matrix_of a.now) scales.now right.now) (answered result) answer.new }
{
    let mut vector = [0u32; 128];
    let mut polynomial = [0u32; 129];
    let mut bill = [0u32; 384];
    let mut work = [0u32; 2064];
    let m = a.starts.len();
    let n = m - 1;
    let verdict = solve(
        Field { p },
        a,
        scales,
        right,
        &[],
        0,
        &mut vector[..n],
        &mut polynomial[..m],
        &mut bill,
        &mut work,
    )?;
    let found = Found {
        bill: &bill,
        polynomial: &polynomial[..m],
        vector: &vector[..n],
    };
    Ok(put_verdict(answer, verdict, &found))
}

// The text call, on arrays for 128 rows and 1,024 entries.
pub(crate) fn answer_text(text: &[u8], answer: &mut [u8]) -> Result<usize, Refusal>
    ensures refused { refused_by result ≡ text_refusal text.now (length answer.old) }
    ensures called { Called text.now answer.old (answered result) answer.new }
{
    let long = text.len() > 26624;
    if long {
        return Err(Refusal::TextLength);
    }
    let mut starts = [0u32; 129];
    let mut columns = [0u32; 1024];
    let mut values = [0u32; 1024];
    let mut scales = [0u32; 128];
    let mut right = [0u32; 128];
    let header = read(
        text,
        &mut starts,
        &mut columns,
        &mut values,
        &mut scales,
        &mut right,
    )?;
    let short = answer.len() < 7168;
    if short {
        return Err(Refusal::Room);
    }
    let n = header.size as usize;
    let m = n + 1;
    let count = header.entries as usize;
    let a = Matrix {
        starts: &starts[..m],
        columns: &columns[..count],
        values: &values[..count],
    };
    put_solved(header.modulus, &a, &scales[..n], &right[..n], answer)
}
