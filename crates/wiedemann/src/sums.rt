// Sums of words by groups. A function that takes a closure asks that it may be called, and what others can reach asks for nothing: so this is for the
// crate itself, and `recurrence` has the same for its own sums.
ghost use Rattle.std.specs.Prelude.{◌≡◌, ℕ, ◌*◌, ◌^◌, ◌<◌, ◌≤◌};
ghost use Rattle.modular.specs.Sums.{Summed};

use modular::sums::Total;

// The total with the terms from `from` up to but not including `to`: by groups of so many that a word holds their sum, and what is left one at a
// time. So a group costs one addition and one with carry.
pub(crate) fn sum_by<const GROUP: usize, F: Fn(usize) -> u64>(
    total: Total,
    from: usize,
    to: usize,
    term: F,
) -> Total
    ghost value: { ℕ → ℕ }
    requires group { 0 < GROUP }
    requires range { (from ≤ to) × (to < 4294967296) × (total.high ≤ from) }
    requires callable { (k : ℕ) → from ≤ k → k < to → F.pre term k }
    requires terms { (k x : ℕ) → from ≤ k → k < to → F.post term k x → (x ≡ value k) × (x * GROUP < 2 ^ 64) }
    ensures { Summed total result from to value }
{
    let groups = (to - from) / GROUP;
    let middle = from + groups * GROUP;
    let mut sum = total;
    for group in 0..groups {
        let first = from + group * GROUP;
        let mut word = 0;
        for j in 0..GROUP {
            word += term(first + j);
        }
        sum = sum.add(word);
    }
    for k in middle..to {
        sum = sum.add(term(k));
    }
    sum
}
