// A line of a system text: its word and its numbers.
ghost use Rattle.std.specs.Prelude.{◌≤◌, length};
ghost use Rattle.system_reader.specs.Lines.{LineAt};

use crate::numeral::{Line, fields};

// A line that begins at a place with the word.
pub(crate) fn line<const N: usize>(text: &[u8], from: usize, word: &[u8]) -> Option<Line<N>>
    requires { from ≤ length text.now }
    ensures { LineAt text.now from word.now N result }
{
    if text[from..].starts_with(word) {
        fields::<N>(text, from + word.len())
    } else {
        None
    }
}
