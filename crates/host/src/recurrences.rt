// The shortest recurrence.
ghost use Rattle.std.specs.Prelude.{IfOk, ◌≡◌, ◌≢◌, ℕ, ◌+◌, ◌≤◌, take};
ghost use Rattle.meaning.specs.Recurrence.{IsShortest};
ghost use Rattle.meaning.specs.Calls.{recurrence_refusal, recurrence_answer, recurrence_after};
ghost use Rattle.recurrence.specs.Recurrence.{GivesDegree};
ghost use Rattle.host.specs.Answers.{degree_of};

use field::Field;
use recurrence::recurrence;
use refusal::Refusal;

#[repr(C)]
#[derive(Clone, Copy)]
pub struct Degree {
    pub refusal: u32,
    pub degree: u32,
}

// A list has at most 8,192 elements, so 32 bits are enough for L. (`From` could not ask for that.)
fn numbers_of(answer: Result<usize, Refusal>) -> Degree
    requires { IfOk answer (λ L. L ≤ 8192) }
    ensures { (number L : ℕ) → GivesDegree answer number L → result ≡ degree_of number L }
{
    match answer {
        Ok(degree) => Degree {
            refusal: 0,
            degree: degree as u32,
        },
        Err(refusal) => Degree {
            refusal: u32::from(refusal),
            degree: 0,
        },
    }
}

#[unsafe(no_mangle)]
pub extern "C" fn filzeur_recurrence(
    p: u32,
    s: &[u32],
    polynomial: &mut [u32],
    work: &mut [u32],
) -> Degree
    ensures value { result ≡ degree_of (recurrence_refusal p s.now polynomial.old work.old) (recurrence_answer p s.now
        polynomial.old work.old) }
    ensures polynomial_after { polynomial.new ≡ recurrence_after p s.now polynomial.old work.old }
    ensures work_unchanged { result.refusal ≢ 0 → work.new ≡ work.old }
    ensures shortest { result.refusal ≡ 0 → IsShortest p s.now result.degree (take (result.degree + 1) polynomial.new) }
{
    numbers_of(recurrence(Field { p }, s, polynomial, work))
}
