// Primality by trial division.
ghost use Rattle.std.specs.Prelude.{◌≡◌, ◌≢◌, ◌%◌, ◌<◌, ◌≤◌};
ghost use Rattle.meaning.specs.Field.{is_prime};

// Whether p is prime, where neither 2 nor 3 divides it: a prime above 3 leaves 1 or 5 modulo 6, so that d = 5, 11, 17, .. and d + 2 are
// tried, up to the root.
#[tactic(auto, using(residue::specs::Prime::wheel_start, residue::specs::Prime::wheel_turn))]
pub(crate) fn prime_by_wheel(p: u32) -> bool
    requires { (3 < p) × (p ≤ 2147483647) × (p % 2 ≢ 0) × (p % 3 ≢ 0) }
    ensures { result ≡ is_prime p }
{
    let mut d = 5;
    while d * d <= p {
        if p % d == 0 || p % (d + 2) == 0 {
            return false;
        }
        d += 6;
    }
    true
}
