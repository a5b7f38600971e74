// Xv for a diagonal X, in v's own place.
ghost use Rattle.std.specs.Prelude.{◌≡◌};
ghost use Rattle.modular.specs.Diagonal.{scaled_by};

use crate::modulus::Modulus;

// Each element times the scale of its place, modulo p. Where there are not as many scales as elements, as where there are none, v stays as it is.
pub fn scale(m: Modulus, scales: &[u32], v: &mut [u32])
    ensures { v.new ≡ scaled_by m scales.now v.old }
{
    if scales.len() != v.len() {
        return;
    }
    for i in 0..v.len() {
        v[i] = m.product(v[i], scales[i]);
    }
}
