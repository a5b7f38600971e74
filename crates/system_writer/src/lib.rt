// The writer of system texts: checks 3 to 9 and 11, and then the text. Document 01, "System text", with request (vi)'s `s` lines; the contracts
// cite meaning's Text and Calls, and specs/Answers gives the paper's length for each case of an answer.
#![tactic(auto)]

mod lines;

ghost use Rattle.std.specs.Prelude.{◌≡◌};
ghost use Rattle.meaning.specs.Calls.{writer_refusal, writer_answer, writer_after};
ghost use Rattle.refusal.specs.Number.{refused_by};
ghost use Rattle.checks.specs.Slices.{matrix_of};
ghost use Rattle.system_writer.specs.Answers.{length_of_written};

use crate::lines::whole_text;
use checks::{Matrix, check_system};
use refusal::Refusal;

// Writes the system's text, leaves the bytes after it, and answers its length; a refusal leaves all. The text is measured first, in a slice without
// room.
#[tactic(auto, using(crate::specs::Writes::system_refused, crate::specs::Writes::refused_answer, crate::specs::Writes::refused_after))]
pub fn write(
    p: u32,
    a: &Matrix,
    scales: &[u32],
    right: &[u32],
    out: &mut [u8],
) -> Result<usize, Refusal>
    ensures result_value { refused_by result ≡ writer_refusal p (matrix_of a.now) scales.now right.now out.old }
    ensures result_value_2 { length_of_written result ≡ writer_answer p (matrix_of a.now) scales.now right.now out.old }
    ensures out_after { out.new ≡ writer_after p (matrix_of a.now) scales.now right.now out.old }
{
    check_system(p, a, scales, right)?;
    let length = whole_text(&mut [], p, a, scales, right);
    if out.len() < length {
        return Err(Refusal::Room);
    }
    whole_text(out, p, a, scales, right);
    Ok(length)
}
