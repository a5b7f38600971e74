// Primality by a table, without a division. Where q × v leaves 1 modulo 2³², p × v modulo 2³² is p / q if q divides p, and too large for a
// quotient if not; one limit serves all q of a block.
ghost use Rattle.std.specs.Prelude.{◌≡◌, ◌≢◌, ◌+◌, ◌*◌, ◌%◌, ◌<◌, ◌≤◌, length, get_or};
ghost use Rattle.meaning.specs.Field.{is_prime};
ghost use Rattle.meaning.specs.List.{all, at};
ghost use Rattle.primality.specs.Blocks.{Candidate, Tables, misses};

use crate::tables::{INVERSES, LIMITS, STARTS};

// A `const` is copied to the stack where it is used: so the tables are lent once.
pub(crate) fn prime_by_table(p: u32) -> bool
    requires { Candidate p }
    ensures { result ≡ is_prime p }
{
    prime_by_blocks(p, &INVERSES, &LIMITS, &STARTS)
}

// The blocks are tried up to the root.
fn prime_by_blocks(p: u32, inverses: &[u32], limits: &[u32], starts: &[u32]) -> bool
    requires { Candidate p × Tables inverses.now limits.now starts.now }
    ensures { result ≡ is_prime p }
{
    for i in 0..limits.len() {
        let start = starts[i];
        if start * start > p {
            return true;
        }
        if !none_divides(p, limits[i], inverses, i * 32) {
            return false;
        }
    }
    true
}

// Whether none of the 32 numbers of a block divides p. No turn ends the loop, so that it is compiled to vectors.
fn none_divides(p: u32, limit: u32, inverses: &[u32], from: usize) -> bool
    requires { from + 32 ≤ length inverses.now }
    ensures { result ≡ all 32 (λ j. misses p limit (at inverses.now (from + j))) }
{
    let mut none = true;
    for j in 0..32 {
        none &= is_missed(p, limit, inverses[from + j]);
    }
    none
}

fn is_missed(p: u32, limit: u32, inverse: u32) -> bool
    ensures { result ≡ misses p limit inverse }
{
    limit < p.wrapping_mul(inverse)
}
