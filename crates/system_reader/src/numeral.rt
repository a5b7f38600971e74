// How far a text goes on in form from a place: a numeral, a field, the rest of a line.
ghost use Rattle.std.specs.Prelude.{◌≡◌, ◌+◌, ◌≤◌, length, drop};
ghost use Rattle.system_reader.specs.Fields.{extension, NumeralAt, FieldAt, NumbersAt};

// A number, and the place after it.
#[derive(Clone, Copy)]
pub(crate) struct Number {
    pub value: u32,
    pub next: usize,
}

// The numeral so far with the byte c behind it: no leading zero, at most 4,294,967,295.
#[tactic(auto, using(std::proofs::lemmas::Bool::Decides::nat_tests), unfolding(crate::specs::Scan::extends_by))]
pub(crate) fn extended(numeral: Option<u32>, c: u8) -> Option<u32>
    ensures { result ≡ extension numeral c }
{
    if !c.is_ascii_digit() {
        return None;
    }
    let digit = u32::from(c - b'0');
    match numeral {
        None => Some(digit),
        Some(0) => None,
        Some(value) => value.checked_mul(10)?.checked_add(digit),
    }
}

// The longest numeral that begins at `from`.
pub(crate) fn numeral(text: &[u8], from: usize) -> Option<Number>
    requires { from ≤ length text.now }
    ensures { NumeralAt (drop from text.now) from result }
{
    let mut value = None;
    let mut next = from;
    for &c in &text[from..] {
        let Some(longer) = extended(value, c) else {
            break;
        };
        value = Some(longer);
        next += 1;
    }
    value.map(|value| Number { value, next })
}

// A field that is a numeral, with the tab before it.
pub(crate) fn field(text: &[u8], from: usize) -> Option<Number>
    requires { from ≤ length text.now }
    ensures { FieldAt text.now from result }
{
    if text.get(from) == Some(&b'\t') {
        numeral(text, from + 1)
    } else {
        None
    }
}

// The numbers of a line, and the place after its end.
#[derive(Clone, Copy)]
pub(crate) struct Line<const N: usize> {
    pub numbers: [u32; N],
    pub next: usize,
}

// The rest of a line: its fields, and then the line's end.
pub(crate) fn fields<const N: usize>(text: &[u8], from: usize) -> Option<Line<N>>
    requires { from ≤ length text.now }
    ensures { NumbersAt text.now from N result }
{
    let mut numbers = [0; N];
    let mut next = from;
    for i in 0..N {
        let number = field(text, next)?;
        numbers[i] = number.value;
        next = number.next;
    }
    if text.get(next) == Some(&b'\n') {
        Some(Line {
            numbers,
            next: next + 1,
        })
    } else {
        None
    }
}
