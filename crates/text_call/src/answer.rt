// The answer's text, line by line.
ghost use Rattle.std.specs.Prelude.{◌≡◌, ◌-◌, ◌*◌, ◌≤◌, ◌<◌, length};
ghost use Rattle.line_writer.specs.Adds.{Adds};
ghost use Rattle.line_writer.specs.Written.{Wrote};
ghost use Rattle.text_call.specs.AnswerText.{element_lines, bill_lines, text_of};

use line_writer::Lines;
use solver::Counts;

// A line for each element: the word, the element's number from `first` on, and the element.
fn put_elements(lines: &mut Lines, word: &[u8], first: u64, elements: &[u32])
    requires { first ≤ 1 }
    ensures { Adds lines.old (element_lines word.now first elements.now (length elements.now)) lines.new }
{
    for (i, &element) in elements.iter().enumerate() {
        lines.put(word, &[i as u64 + first, element as u64]);
    }
}

// A line for each pass: its number from 1, and what the bill has of it.
fn put_passes(lines: &mut Lines, bill: &[u32], passes: u64)
    requires { 3 * passes ≤ length bill.now }
    ensures { Adds lines.old (bill_lines bill.now passes) lines.new }
{
    for i in 0..passes {
        let from = 3 * i as usize;
        let left = bill[from] as u64;
        let degree = bill[from + 1] as u64;
        let applications = bill[from + 2] as u64;
        lines.put(b"pass", &[i + 1, left, degree, applications]);
    }
}

// What a run leaves: its passes' numbers, F and the vector.
#[derive(Clone, Copy)]
pub(crate) struct Found<'a> {
    pub(crate) bill: &'a [u32],
    pub(crate) polynomial: &'a [u32],
    pub(crate) vector: &'a [u32],
}

// The whole text, from the front of the slice; answers its length. `head` is the first line's word, with the kind, and `word` that of the
// vector's lines. The close counts D − 1, or 0 if D = 0.
pub(crate) fn put_answer(
    out: &mut [u8],
    head: &[u8],
    word: &[u8],
    c: Counts,
    found: &Found,
) -> usize
    requires { (c.degree < length found.now.polynomial.now) × (3 * c.passes ≤ length found.now.bill.now) }
    ensures { Wrote out.old 0 (text_of head.now word.now c.degree c.passes c.applications c.multiplied
        found.now.bill.now found.now.polynomial.now found.now.vector.now) result out.new }
{
    let degree = c.degree as u64;
    let mut lines = Lines::new(out);
    lines.put(head, &[degree, c.passes, c.applications, c.multiplied]);
    put_passes(&mut lines, found.bill, c.passes);
    lines.put(b"close", &[degree.saturating_sub(1)]);
    put_elements(&mut lines, b"f", 0, &found.polynomial[..c.degree + 1]);
    put_elements(&mut lines, word, 1, found.vector);
    lines.put(b"end", &[]);
    lines.place()
}
