// The text of a system, line by line; in a slice without room the lines measure it.
ghost use Rattle.std.specs.Prelude.{◌-◌, ◌≤◌, ◌<◌, ◌≡◌, true, leb, length};
ghost use Rattle.meaning.specs.List.{every};
ghost use Rattle.meaning.specs.Matrix.{size};
ghost use Rattle.meaning.specs.Text.{write_scales, write};
ghost use Rattle.laws.specs.Accepted.{AcceptedScales};
ghost use Rattle.line_writer.specs.Adds.{Adds};
ghost use Rattle.line_writer.specs.Written.{Wrote};
ghost use Rattle.checks.specs.Slices.{matrix_of};
ghost use Rattle.system_writer.specs.Writes.{Rows, row_text, rows_text, place_text, right_text};

use checks::{Matrix, all_ones};
use line_writer::Lines;

// The `a` lines of a row.
fn row_lines(lines: &mut Lines, row: usize, from: usize, to: usize, columns: &[u32], values: &[u32])
    requires { (row < 4096) × (from ≤ to) × (to ≤ length columns.now) × (to ≤ length values.now) }
    ensures { Adds lines.old (row_text columns.now values.now row from (to - from)) lines.new }
{
    for k in from..to {
        let column = columns[k] as u64 + 1;
        lines.put(b"a", &[row as u64 + 1, column, values[k] as u64]);
    }
}

// The `a` lines of all rows.
fn all_rows(lines: &mut Lines, a: &Matrix)
    requires { Rows (matrix_of a.now) }
    ensures { Adds lines.old (rows_text (matrix_of a.now)) lines.new }
{
    for i in 0..a.starts.len() - 1 {
        let from = a.starts[i] as usize;
        let to = a.starts[i + 1] as usize;
        row_lines(lines, i, from, to, a.columns, a.values);
    }
}

// A line for each element that is not 0: a letter, the place and the element.
fn place_lines(lines: &mut Lines, letter: &[u8], v: &[u32])
    ensures { Adds lines.old (place_text letter.now v.now) lines.new }
{
    for (i, &value) in v.iter().enumerate() {
        if value == 0 {
            continue;
        }
        lines.put(letter, &[i as u64 + 1, value as u64]);
    }
}

// The `s` lines, exactly if some scale isn't 1; no scale is 0.
fn scale_lines(lines: &mut Lines, scales: &[u32])
    requires { every (leb 1) scales.now ≡ true }
    ensures { Adds lines.old (write_scales (length scales.now) scales.now) lines.new }
{
    if all_ones(scales) {
        return;
    }
    place_lines(lines, b"s", scales);
}

// The `b` lines and the end.
fn right_side(lines: &mut Lines, right: &[u32])
    ensures { Adds lines.old (right_text right.now) lines.new }
{
    place_lines(lines, b"b", right);
    lines.put(b"end", &[]);
}

// The whole text, from the front of the slice; answers its length.
pub(crate) fn whole_text(out: &mut [u8], p: u32, a: &Matrix, scales: &[u32], right: &[u32]) -> usize
    requires rows { Rows (matrix_of a.now) }
    requires accepted_scales { AcceptedScales p (size (matrix_of a.now)) scales.now }
    requires right_len { length right.now ≡ size (matrix_of a.now) }
    ensures { Wrote out.old 0 (write p (matrix_of a.now) scales.now right.now) result out.new }
{
    let n = a.starts.len() - 1;
    let mut lines = Lines::new(out);
    lines.put(b"system", &[p as u64, n as u64, a.columns.len() as u64]);
    all_rows(&mut lines, a);
    scale_lines(&mut lines, scales);
    right_side(&mut lines, right);
    lines.place()
}
