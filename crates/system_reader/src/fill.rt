// The second pass over a text that the checks have taken: the lent slices are filled.
ghost use Rattle.std.specs.Prelude.{◌≡◌, ◌+◌, ◌≤◌, length, drop};
ghost use Rattle.meaning.specs.List.{overwrite};
ghost use Rattle.meaning.specs.Text.{placed};
ghost use Rattle.system_reader.specs.Places.{entries_of, places_of};
ghost use Rattle.system_reader.specs.Fill.{starts_of, columns_of, values_of, EntriesAhead, PlacesAhead};

use crate::line::line;

// The `a` lines: a row's start is the number of entries above it.
pub(crate) fn fill_entries(
    text: &[u8],
    from: usize,
    count: usize,
    n: usize,
    starts: &mut [u32],
    columns: &mut [u32],
    values: &mut [u32],
)
    requires entries_ahead { EntriesAhead text.now from count n }
    requires n_in_bounds { (n + 1 ≤ length starts.old) × (count ≤ length columns.old) × (count ≤ length values.old) × (count ≤ 65536) }
    ensures starts_after { starts.new ≡ overwrite (starts_of n (entries_of (drop from text.now))) starts.old }
    ensures columns_after { columns.new ≡ overwrite (columns_of (entries_of (drop from text.now))) columns.old }
    ensures values_after { values.new ≡ overwrite (values_of (entries_of (drop from text.now))) values.old }
{
    let mut at = from;
    let mut above = 0;
    for k in 0..count {
        let l = line::<3>(text, at, b"a").unwrap();
        let [row, column, value] = l.numbers;
        let below = row as usize;
        starts[above..below].fill(k as u32);
        columns[k] = column - 1;
        values[k] = value;
        above = below;
        at = l.next;
    }
    starts[above..n + 1].fill(count as u32);
}

// The lines with the word `s` or `b`; places without a line get the value `none`.
pub(crate) fn fill_placed(
    text: &[u8],
    from: usize,
    word: &[u8],
    count: usize,
    n: usize,
    none: u32,
    out: &mut [u32],
)
    requires places_ahead { PlacesAhead word.now text.now from count n }
    requires n_in_bounds { n ≤ length out.old }
    ensures { out.new ≡ overwrite (placed n none (places_of word.now (drop from text.now))) out.old }
{
    out[..n].fill(none);
    let mut at = from;
    for _ in 0..count {
        let l = line::<2>(text, at, word).unwrap();
        let [place, value] = l.numbers;
        out[place as usize - 1] = value;
        at = l.next;
    }
}
