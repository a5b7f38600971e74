// A prime field as document 01 has it: a record made from the modulus p, whose operations belong to it. Anyone may make up a record, so
// every operation checks it first, then its operands.
//
// The contracts cite the crate meaning (Field: what the operations mean; Inverses: what is asked of the table; Calls: what a call refuses and
// answers) and specs/Answer.antt (what each case of an answer says).
#![tactic(auto)]

mod byte_field;
mod euclid;
mod table;

ghost use Rattle.std.specs.Prelude.{◌≡◌, ◌&&◌, ltb};
ghost use Rattle.meaning.specs.Field.{plus, minus, times, inverse};
ghost use Rattle.meaning.specs.Calls.{field_refusal, operation_refusal, operation_answer, inverse_refusal, inverse_answer};
ghost use Rattle.refusal.specs.Number.{refused_by};
ghost use Rattle.field.specs.Answer.{Makes, Gives, Operands};

use byte_field::inverse_by_table;
pub use euclid::inverse_by_euclid;
pub use primality::is_modulus;
use refusal::Refusal;

// Elements are 0 to p - 1.
#[derive(Clone, Copy, Debug, PartialEq, Eq)]
pub struct Field {
    pub p: u32,
}

impl Field {
    #[tactic(auto, using(crate::proofs::Refusals::field_taken, crate::proofs::Refusals::field_refused))]
    pub fn new(p: u32) -> Result<Self, Refusal>
        ensures { Makes result (field_refusal p) p }
    {
        if is_modulus(p) {
            Ok(Field { p })
        } else {
            Err(Refusal::Modulus)
        }
    }

    #[tactic(auto, using(crate::proofs::Refusals::operation_accepted))]
    pub fn sum(self, a: u32, b: u32) -> Result<u32, Refusal>
        ensures { Gives result (operation_refusal self.p a b) (operation_answer plus self.p a b) }
    {
        let p = self.p;
        check_operands(p, a, b)?;
        Ok(sum_below(p, a, b))
    }

    #[tactic(auto, using(crate::proofs::Refusals::operation_accepted))]
    pub fn difference(self, a: u32, b: u32) -> Result<u32, Refusal>
        ensures { Gives result (operation_refusal self.p a b) (operation_answer minus self.p a b) }
    {
        let p = self.p;
        check_operands(p, a, b)?;
        Ok(difference_below(p, a, b))
    }

    #[tactic(auto, using(crate::proofs::Refusals::operation_accepted))]
    pub fn product(self, a: u32, b: u32) -> Result<u32, Refusal>
        ensures { Gives result (operation_refusal self.p a b) (operation_answer times self.p a b) }
    {
        let p = self.p;
        check_operands(p, a, b)?;
        Ok(product_below(p, a, b))
    }

    pub fn inverse(self, a: u32) -> Result<u32, Refusal>
        ensures { Gives result (inverse_refusal self.p a) (inverse_answer self.p a) }
    {
        let p = self.p;
        check_invertible(p, a)?;
        Ok(inverse_modulo(p, a))
    }
}

// The checks of a sum, a difference or a product.
#[tactic(auto, using(crate::proofs::Refusals::operation_modulus, crate::proofs::Refusals::operation_operand, crate::proofs::Refusals::operation_taken))]
fn check_operands(p: u32, a: u32, b: u32) -> Result<(), Refusal>
    ensures { refused_by result ≡ operation_refusal p a b }
{
    let prime = is_modulus(p);
    let elements = are_elements(p, a, b);
    if !prime {
        return Err(Refusal::Modulus);
    }
    if !elements {
        return Err(Refusal::Elements);
    }
    Ok(())
}

fn are_elements(p: u32, a: u32, b: u32) -> bool
    ensures { result ≡ (ltb a p && ltb b p) }
{
    a < p && b < p
}

// Those of an inverse: an operation's, and that a is not 0.
#[tactic(auto, using(crate::proofs::Refusals::inverse_operation, crate::proofs::Refusals::inverse_of_zero, crate::proofs::Refusals::inverse_taken))]
fn check_invertible(p: u32, a: u32) -> Result<(), Refusal>
    ensures { refused_by result ≡ inverse_refusal p a }
{
    check_operands(p, a, a)?;
    if a == 0 {
        return Err(Refusal::Zero);
    }
    Ok(())
}

// The inverse of a modulo any p, and p where a has none: modulo 251 from a table, otherwise the general way.
pub fn inverse_modulo(p: u32, a: u32) -> u32
    ensures { result ≡ inverse p a }
{
    if p == 251 {
        inverse_by_table(a)
    } else {
        inverse_by_euclid(p, a)
    }
}

// The operations on elements of a field.

fn sum_below(p: u32, a: u32, b: u32) -> u32
    requires { Operands p a b }
    ensures { result ≡ plus p a b }
{
    let s = a + b;
    if s < p { s } else { s - p }
}

fn difference_below(p: u32, a: u32, b: u32) -> u32
    requires { Operands p a b }
    ensures { result ≡ minus p a b }
{
    if b <= a { a - b } else { a + (p - b) }
}

fn product_below(p: u32, a: u32, b: u32) -> u32
    requires { Operands p a b }
    ensures { result ≡ times p a b }
{
    let m = p as u64;
    (a as u64 * b as u64 % m) as u32
}
