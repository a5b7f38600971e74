// Lines one after the other, from the front of a slice.
ghost use Rattle.std.specs.Prelude.{◌≡◌, ◌∷◌, map};
ghost use Rattle.meaning.specs.Text.{decimal, line};
ghost use Rattle.line_writer.specs.Adds.{Adds};
ghost use Rattle.line_writer.specs.Written.{written};

use crate::put_line;

// The slice, and the place after the lines so far.
#[derive(Drop)]
pub struct Lines<'a> {
    out: &'a mut [u8],
    at: usize,
}

impl<'a> Lines<'a> {
    // None yet.
    pub fn new(out: &'a mut [u8]) -> Self
        ensures same_slice { result.out.ghost_name ≡ out.entry.ghost_name }
        ensures bytes { result.out.now ≡ out.old }
        ensures place { result.at ≡ 0 }
    {
        Lines { out, at: 0 }
    }

    // Writes a line, if there is room for all of it, and goes to the place after it.
    #[inline(always)]
    pub fn put(&mut self, word: &[u8], numbers: &[u64])
        ensures adds { Adds self.old (line (word.now ∷ map decimal numbers.now)) self.new }
        ensures bytes { self.new.out.now ≡ written self.old.out.now self.old.at (line (word.now ∷ map decimal numbers.now)) }
    {
        self.at = put_line(self.out, self.at, word, numbers);
    }

    // The place after the lines so far.
    pub fn place(&self) -> usize
        ensures { result ≡ self.now.at }
    {
        self.at
    }
}
