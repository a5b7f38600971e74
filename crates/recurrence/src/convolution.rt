// Coefficients of products of polynomials: two regions of one slice, one read forwards and the other backwards.
ghost use Rattle.modular.specs.Sums.{Summed};
ghost use Rattle.recurrence.specs.Convolution.{cross, Crossing, nothing};

use crate::sums::sum_by;
use modular::sums::{Total, times};

// The sum of the products of the elements at `forward` + i and at `backward` − i, for i from `from` up to but not including `to`. Four of them fit a
// word.
#[tactic(auto, using(crate::specs::Convolution::crossing_reads))]
pub(crate) fn crossed(
    work: &[u32],
    forward: usize,
    backward: usize,
    from: usize,
    to: usize,
) -> Total
    requires { Crossing work.now forward backward from to }
    ensures { Summed nothing result from to (cross work.now forward backward) }
{
    sum_by::<4, _>(Total { low: 0, high: 0 }, from, to, |i| {
        times(work[forward + i], work[backward - i])
    })
}
