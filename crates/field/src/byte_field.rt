// Inverses modulo 251, from a table. It has bytes and not words, since a constant is copied to the stack, whole, wherever it is used.
ghost use Rattle.std.specs.Prelude.{◌≡◌};
ghost use Rattle.meaning.specs.Field.{inverse};
ghost use Rattle.meaning.specs.Inverses.{ByteTable};

use crate::table::INVERSES;

// The table: the entry of an element stands at the place before its number.
fn byte_inverses() -> [u8; 250]
    ensures { ByteTable result }
{
    INVERSES
}

// The inverse of a modulo 251, and 251 where a has none.
pub(crate) fn inverse_by_table(a: u32) -> u32
    ensures { result ≡ inverse 251 a }
{
    let element = a % 251;
    if element == 0 {
        return 251;
    }
    let table = byte_inverses();
    let place = (element - 1) as usize;
    u32::from(table[place])
}
