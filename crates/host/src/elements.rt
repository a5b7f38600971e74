// The field of p elements. A record is made up here from any p: every operation checks it.
ghost use Rattle.std.specs.Prelude.{◌≡◌, ℕ};
ghost use Rattle.meaning.specs.Field.{plus, minus, times};
ghost use Rattle.meaning.specs.Calls.{field_refusal, operation_refusal, operation_answer, inverse_refusal, inverse_answer};
ghost use Rattle.field.specs.Answer.{Gives};
ghost use Rattle.host.specs.Answers.{element_of};

use field::Field;
use refusal::Refusal;

#[repr(C)]
#[derive(Clone, Copy)]
pub struct Element {
    pub refusal: u32,
    pub value: u32,
}

impl From<Result<u32, Refusal>> for Element {
    ghost from_gives = { λ answer numbers. (number x : ℕ) → Gives answer number x → numbers ≡ element_of number x };

    fn from(answer: Result<u32, Refusal>) -> Element {
        match answer {
            Ok(value) => Element { refusal: 0, value },
            Err(refusal) => Element {
                refusal: u32::from(refusal),
                value: 0,
            },
        }
    }
}

#[unsafe(no_mangle)]
pub extern "C" fn filzeur_field(p: u32) -> u32
    ensures { result ≡ field_refusal p }
{
    match Field::new(p) {
        Ok(_) => 0,
        Err(refusal) => u32::from(refusal),
    }
}

#[unsafe(no_mangle)]
pub extern "C" fn filzeur_sum(p: u32, a: u32, b: u32) -> Element
    ensures { result ≡ element_of (operation_refusal p a b) (operation_answer plus p a b) }
{
    Element::from(Field { p }.sum(a, b))
}

#[unsafe(no_mangle)]
pub extern "C" fn filzeur_difference(p: u32, a: u32, b: u32) -> Element
    ensures { result ≡ element_of (operation_refusal p a b) (operation_answer minus p a b) }
{
    Element::from(Field { p }.difference(a, b))
}

#[unsafe(no_mangle)]
pub extern "C" fn filzeur_product_of(p: u32, a: u32, b: u32) -> Element
    ensures { result ≡ element_of (operation_refusal p a b) (operation_answer times p a b) }
{
    Element::from(Field { p }.product(a, b))
}

#[unsafe(no_mangle)]
pub extern "C" fn filzeur_inverse(p: u32, a: u32) -> Element
    ensures { result ≡ element_of (inverse_refusal p a) (inverse_answer p a) }
{
    Element::from(Field { p }.inverse(a))
}
