// Lines written into byte slices: a word, then numbers with a tab before each, then byte 10.
//
// `Lines` writes lines one after the other from the front of a slice, `put_line` one line at a place. What does not fit is not written, and the
// place after it is answered all the same: in a slice without room they measure. The contracts cite the crate meaning (Text: decimal, line),
// specs/Placed.antt (a slice with a word in it), specs/Written.antt (what a line leaves, and lines one after the other) and specs/Adds.antt
// (what is added to lines).
#![tactic(auto)]

mod lines;

ghost use Rattle.std.specs.Prelude.{◌≡◌, ◌&&◌, ◌∷◌, map, ◌+◌, ◌≤◌, ◌<◌, ltb, leb, length};
ghost use Rattle.meaning.specs.Text.{decimal, line};
ghost use Rattle.line_writer.specs.Placed.{placed};
ghost use Rattle.line_writer.specs.Written.{last, capped, after, written, fields, line_length};

pub use lines::Lines;

// The number of k's digits.
fn digits_of(k: u64) -> usize
    ensures { (result ≡ length (decimal k)) × (result ≤ 20) }
{
    // the most frequent case by far in small systems
    if k < 10 { 1 } else { k.ilog10() as usize + 1 }
}

// The length of a line of a word of so many bytes and of these numbers.
fn length_of(word: usize, numbers: &[u64]) -> usize
    ensures { result ≡ capped (line_length word numbers.now) }
{
    let mut bytes = word.saturating_add(1);
    for k in numbers {
        bytes = bytes.saturating_add(1 + digits_of(*k));
    }
    bytes
}

// Whether a place is one of a slice of so many bytes, or right after them.
fn has_room(room: usize, end: usize) -> bool
    ensures { result ≡ ltb end last && leb end room }
{
    end < usize::MAX && end <= room
}

fn digit(x: u64) -> u8
    requires { x < 10 }
    ensures { result ≡ 48 + x }
{
    b'0' + x as u8
}

// Writes k's digits, as many as said, from the last.
#[tactic(auto, using(text_laws::specs::Numeral::decimal_positive))]
fn put_digits(out: &mut [u8], at: usize, digits: usize, k: u64)
    requires digits_value { digits ≡ length (decimal k) }
    requires digits_in_bounds { at + digits ≤ length out.old }
    ensures { out.new ≡ placed out.old at (decimal k) }
{
    let mut left = digits - 1;
    let mut rest = k;
    while rest >= 10 {
        out[at + left] = digit(rest % 10);
        rest /= 10;
        left -= 1;
    }
    out[at] = digit(rest);
}

// (Byte after byte: std's `copy_from_slice` would have the library ask the host's C library for `memmove`.)
fn put_word(out: &mut [u8], at: usize, word: &[u8])
    requires { at + length word.now ≤ length out.old }
    ensures { out.new ≡ placed out.old at word.now }
{
    for i in 0..word.len() {
        out[at + i] = word[i];
    }
}

// Writes the numbers, a tab before each.
fn put_fields(out: &mut [u8], at: usize, numbers: &[u64])
    requires { at + length (fields numbers.now) ≤ length out.old }
    ensures { out.new ≡ placed out.old at (fields numbers.now) }
{
    let mut next = at;
    for k in numbers {
        let digits = digits_of(*k);
        out[next] = b'\t';
        put_digits(out, next + 1, digits, *k);
        next += 1 + digits;
    }
}

// Writes a line, if there is room for all of it, and answers the place after it. (Compiled into each caller, whose words and numbers are few: as a call a
// line of a few bytes took twice the time.)
#[inline(always)]
pub fn put_line(out: &mut [u8], at: usize, word: &[u8], numbers: &[u64]) -> usize
    ensures value { result ≡ after at (line (word.now ∷ map decimal numbers.now)) }
    ensures out_after { out.new ≡ written out.old at (line (word.now ∷ map decimal numbers.now)) }
{
    let end = at.saturating_add(length_of(word.len(), numbers));
    if has_room(out.len(), end) {
        put_word(out, at, word);
        put_fields(out, at + word.len(), numbers);
        out[end - 1] = b'\n';
    }
    end
}
