// What a projection makes of a vector: its dot product with some of the random words, or one of its elements.
ghost use Rattle.std.specs.Prelude.{◌≡◌, ◌%◌, ◌≤◌, ◌<◌, length, get_or, []};
ghost use Rattle.meaning.specs.List.{at, table};
ghost use Rattle.meaning.specs.Solver.{dot, projections};
ghost use Rattle.checks.specs.Valid.{Vector};
ghost use Rattle.modular.specs.Modulus.{Modular};
ghost use Rattle.wiedemann.specs.Projection.{word_term, Raw, Words};

use crate::sums::sum_by;
use modular::modulus::Modulus;
use modular::sums::{Total, times};
use slices::element;

// A projection of a run, by its place among all of them: the first `vectors` are made of the random words, the others are the unit vectors.
#[derive(Clone, Copy)]
pub(crate) struct Projection<'a> {
    pub(crate) words: &'a [u32],
    pub(crate) vectors: usize,
    pub(crate) index: usize,
}

// Word i times element i.
fn product(i: usize, words: &[u32], v: &[u32]) -> u64
    requires { Raw words.now v.now × (i < length v.now) }
    ensures { (result ≡ word_term words.now v.now i) × (result ≤ 9223372026117357570) }
{
    times(words[i], v[i])
}

// The dot product of the first words, each taken modulo p, with v: two products fit a word.
fn dot(m: Modulus, words: &[u32], v: &[u32]) -> u32
    requires { Raw words.now v.now × Modular m }
    ensures { result ≡ dot m.p (table (length v.now) (λ i. at words.now i % m.p)) v.now }
{
    let none = Total { low: 0, high: 0 };
    sum_by::<2, _>(none, 0, v.len(), move |i| product(i, words, v)).residue(m)
}

// What a projection makes of v: 0 past the last one.
pub(crate) fn projected(m: Modulus, u: &Projection, v: &[u32]) -> u32
    requires { Modular m × Words (length v.now) u.now.vectors u.now.words.now × Vector m.p (length v.now) v.now × (length v.now ≤ 4096) }
    ensures { result ≡ dot m.p (get_or (projections m.p (length v.now) u.now.words.now) u.now.index []) v.now }
{
    let j = u.index;
    if j < u.vectors {
        let from = j * v.len();
        dot(m, &u.words[from..], v)
    } else {
        element(v, j - u.vectors)
    }
}
