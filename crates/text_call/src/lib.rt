// The text call: system text in, answer text out.
//
// The contracts cite the crate meaning (Answer: the answer's text; Calls: what the call refuses, answers and leaves), specs/AnswerText.antt
// (the answer's lines), specs/Loaded.antt (a system in the arrays), specs/Checks.antt (what the call ensures) and specs/Program.antt (what
// the program prints).
#![tactic(auto)]

mod answer;
mod call;

ghost use Rattle.std.specs.Prelude.{◌≤◌, length};
ghost use Rattle.meaning.specs.Answer.{refused_text};
ghost use Rattle.refusal.specs.Number.{number_of};
ghost use Rattle.line_writer.specs.Written.{Wrote};
ghost use Rattle.text_call.specs.Checks.{Called};
ghost use Rattle.text_call.specs.Program.{Shown, Printed};

use call::answer_text;
use line_writer::put_line;
use refusal::Refusal;

// The number is the answer's length, which is always above 18, or the refusal's.
#[unsafe(no_mangle)]
pub extern "C" fn filzeur_text(text: &[u8], answer: &mut [u8]) -> u64
    ensures { Called text.now answer.old result answer.new }
{
    match answer_text(text, answer) {
        Ok(length) => length as u64,
        Err(refusal) => u64::from(u32::from(refusal)),
    }
}

// The line of a refusal.
fn put_refused(out: &mut [u8], refusal: Refusal) -> usize
    ensures { Wrote out.old 0 (refused_text (number_of refusal)) result out.new }
{
    put_line(out, 0, b"refused", &[u64::from(u32::from(refusal))])
}

// What the program prints for a text, at the front of the slice: the answer's text, or `refused` and the number.
fn show(text: &[u8], out: &mut [u8]) -> usize
    requires { 7168 ≤ length out.old }
    ensures { Shown text.now out.old result out.new }
{
    match answer_text(text, out) {
        Ok(length) => length,
        Err(refusal) => put_refused(out, refusal),
    }
}

// What the program prints where the first `read` bytes of the buffer were read, at the front of a slice of at least 7,168 bytes. The buffer
// has at least 26,625, one more than a text may have, so that a text that was cut is refused as the whole would be. Where one of these
// is shorter, or more was read than the buffer has, the slice stays as it is, and the answer is 0.
pub fn output(buffer: &[u8], read: usize, out: &mut [u8]) -> usize
    ensures { Printed buffer.now read out.old result out.new }
{
    if buffer.len() < 26625 {
        return 0;
    }
    if buffer.len() < read {
        return 0;
    }
    if out.len() < 7168 {
        return 0;
    }
    show(&buffer[..read], out)
}
