// A system that the checks of a call have taken.
ghost use Rattle.checks.specs.Slices.{matrix_of};
ghost use Rattle.solver.specs.Run.{CheckedSystem};

use checks::Matrix;
use field::Field;

// AX over the field, X being the diagonal of the scales, none standing for ones, and b.
#[derive(Clone, Copy)]
pub(crate) struct System<'a> {
    pub(crate) field: Field,
    pub(crate) a: &'a Matrix<'a>,
    pub(crate) scales: &'a [u32],
    pub(crate) b: &'a [u32],
    pub(crate) ghost checked: { CheckedSystem field.p (matrix_of a.now) scales.now b.now },
}
