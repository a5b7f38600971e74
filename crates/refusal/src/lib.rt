// Why a call turns its input down: the first of its checks that fails, each with the number that C and the texts give it.
//
// The contract cites specs/Number.antt (the numbers, and that of an answer).
#![tactic(auto)]

ghost use Rattle.std.specs.Prelude.{◌≡◌};
ghost use Rattle.refusal.specs.Number.{number_of};

// The checks, by their numbers.
#[derive(Clone, Copy, Debug, PartialEq, Eq)]
pub enum Refusal {
    // A text is longer than the text call takes.
    TextLength = 1,
    // A text is not in form.
    Form = 2,
    // The modulus is no prime from 2 to 2,147,483,647.
    Modulus = 3,
    // There are more than 4,096 rows, or no starts.
    Size = 4,
    // The starts do not fit the entries, or the numbers of entries or scales are wrong.
    Shape = 5,
    // A row or a column is out of range or out of order.
    Places = 6,
    // An entry or a scale is no element, or 0.
    Values = 7,
    // A list has a wrong length.
    Lengths = 8,
    // A number is no element.
    Elements = 9,
    // The random words do not divide by n, or are too many.
    Words = 10,
    // A lent slice has not the room that is asked for.
    Room = 11,
    // 0 has no inverse.
    Zero = 12,
    // A window is above 64.
    Window = 13,
}

impl From<Refusal> for u32 {
    ghost from_gives = { λ refusal number. number ≡ number_of refusal };

    fn from(refusal: Refusal) -> u32 {
        refusal as u32
    }
}
