// The checks of answers that anyone offers.
ghost use Rattle.std.specs.Prelude.{◌≡◌, Bool, ℕ};
ghost use Rattle.meaning.specs.Matrix.{Matrix as MatrixMeaning, matrix, entry_count, multiplied};
ghost use Rattle.meaning.specs.Refusal.{unless_refused};
ghost use Rattle.meaning.specs.Calls.{takes_refusal, takes_answer, takes_count, is_null_refusal, is_null_answer, is_null_count};
ghost use Rattle.wiedemann.specs.Answers.{Decides};
ghost use Rattle.host.specs.Answers.{yes_of};

use checks::Matrix;
use field::Field;
use refusal::Refusal;
use wiedemann::offered::{Offered, is_null, takes};

#[repr(C)]
#[derive(Clone, Copy)]
pub struct Yes {
    pub refusal: u32,
    // 1 or 0
    pub yes: u32,
    pub multiplied: u64,
}

impl From<Result<Offered, Refusal>> for Yes {
    ghost from_gives = { λ answer numbers. (number : ℕ) (yes : Bool) (A : MatrixMeaning) → Decides answer number yes A
        → numbers ≡ yes_of number yes (unless_refused number (multiplied 1 A) 0) };

    fn from(answer: Result<Offered, Refusal>) -> Yes {
        match answer {
            Ok(found) => Yes {
                refusal: 0,
                yes: u32::from(found.holds),
                multiplied: found.multiplied,
            },
            Err(refusal) => Yes {
                refusal: u32::from(refusal),
                yes: 0,
                multiplied: 0,
            },
        }
    }
}

#[unsafe(no_mangle)]
pub extern "C" fn filzeur_takes(
    p: u32,
    starts: &[u32],
    columns: &[u32],
    values: &[u32],
    x: &[u32],
    b: &[u32],
) -> Yes
    ensures value { result ≡ yes_of (takes_refusal p (matrix starts.now columns.now values.now) x.now
        b.now) (takes_answer p (matrix starts.now columns.now values.now) x.now b.now)
        (takes_count p (matrix starts.now columns.now values.now) x.now b.now) }
    ensures multiplied_value { result.multiplied ≡ unless_refused result.refusal (entry_count (matrix starts.now columns.now values.now)) 0 }
{
    let a = Matrix {
        starts,
        columns,
        values,
    };
    Yes::from(takes(Field { p }, &a, x, b))
}

#[unsafe(no_mangle)]
pub extern "C" fn filzeur_is_null(
    p: u32,
    starts: &[u32],
    columns: &[u32],
    values: &[u32],
    w: &[u32],
) -> Yes
    ensures value { result ≡ yes_of (is_null_refusal p (matrix starts.now columns.now values.now) w.now)
        (is_null_answer p (matrix starts.now columns.now values.now) w.now)
        (is_null_count p (matrix starts.now columns.now values.now) w.now) }
    ensures multiplied_value { result.multiplied ≡ unless_refused result.refusal (entry_count (matrix starts.now columns.now values.now)) 0 }
{
    let a = Matrix {
        starts,
        columns,
        values,
    };
    Yes::from(is_null(Field { p }, &a, w))
}
