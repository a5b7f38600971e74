// Places of slices of 32-bit numbers: read, written, cleared, copied, put in reverse order, and whether all are zero. Every function answers for all inputs.
//
// The contracts cite the crates meaning (List) and laws (Written), and specs/Copy.antt (what a copy within one slice leaves).
#![tactic(auto)]

ghost use Rattle.std.specs.Prelude.{◌≡◌, ◌-◌, length};
ghost use Rattle.meaning.specs.List.{at, table, zeros, padded, is_zero};
ghost use Rattle.slices.specs.Copy.{Copies};

// Element i of v, 0 past its end.
pub fn element(v: &[u32], i: usize) -> u32
    ensures { result ≡ at v.now i }
{
    v.get(i).copied().unwrap_or(0)
}

// Whether each element is 0.
pub fn is_zero(v: &[u32]) -> bool
    ensures { result ≡ is_zero v.now }
{
    v.iter().all(|x| *x == 0)
}

// Zeros in every place.
pub fn clear(out: &mut [u32])
    ensures { out.new ≡ zeros (length out.old) }
{
    out.fill(0);
}

// All places in reverse order.
pub fn reverse(v: &mut [u32])
    ensures { v.new ≡ table (length v.old) (λ i. at v.old (length v.old - 1 - i)) }
{
    v.reverse();
}

// The source into out, zeros after it.
pub fn write_padded(source: &[u32], out: &mut [u32])
    ensures { out.new ≡ padded (length out.old) source.now }
{
    for i in 0..out.len() {
        out[i] = element(source, i);
    }
}

// The `size` places from `from` on copied to those from `to` on, which may meet them where they stand before them. Where they do not lie in the
// slice so, nothing is copied.
pub fn copy_within(work: &mut [u32], from: usize, to: usize, size: usize)
    ensures { Copies work.old from to size work.new }
{
    if size > work.len() {
        return;
    }
    let last = work.len() - size;
    if from > last || to > last {
        return;
    }
    let end = from + size;
    if from < to && to < end {
        return;
    }
    work.copy_within(from..end, to);
}
