// Inverses by the Euclidean algorithm.
ghost use Rattle.std.specs.Prelude.{◌≡◌};
ghost use Rattle.meaning.specs.Field.{inverse};

// The inverse of a modulo any p, and p where a has none: the Euclidean algorithm on u = p and v = a, which keeps a·t ≡ v and a·s ≡ -u
// modulo p, and u·t + v·s = p, so that nothing is signed and nothing exceeds p.
pub fn inverse_by_euclid(p: u32, a: u32) -> u32
    ensures { result ≡ inverse p a }
{
    if p < 2 {
        return p;
    }
    let mut u = p;
    let mut v = a % p;
    let mut s = 0;
    let mut t = 1;
    while v > 1 {
        s += u / v * t;
        u %= v;
        if u == 0 {
            return p;
        }
        if u == 1 {
            return p - s;
        }
        t += v / u * s;
        v %= u;
    }
    if v == 1 { t } else { p }
}
