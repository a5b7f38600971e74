// AX over the field of p elements, as a call's checks have taken them: what a pass multiplies by.
ghost use Rattle.meaning.specs.Field.{is_modulus};
ghost use Rattle.modular.specs.Modulus.{Modular};
ghost use Rattle.checks.specs.Slices.{matrix_of};
ghost use Rattle.checks.specs.Valid.{ValidScaled};
ghost use Rattle.std.specs.Prelude.{◌≡◌, true};

use checks::Matrix;
use modular::modulus::Modulus;

// A, or AX where there are scales.
#[derive(Clone, Copy)]
pub(crate) struct Operator<'a> {
    pub(crate) m: Modulus,
    pub(crate) a: &'a Matrix<'a>,
    pub(crate) scales: &'a [u32],
    pub(crate) ghost prime: { is_modulus m.p ≡ true },
    pub(crate) ghost modular: { Modular m },
    pub(crate) ghost valid: { ValidScaled m.p (matrix_of a.now) scales.now },
}
