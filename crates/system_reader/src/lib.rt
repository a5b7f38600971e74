// The reader of system texts, which come from anywhere: checks 2 to 7 and 11, each over the whole text before the next, and then the slices.
// The contracts cite meaning's Text, Refusal and Calls, and specs/Answers gives the values for each case of an answer.
#![tactic(auto)]

mod fill;
mod line;
mod numeral;
mod survey;

ghost use Rattle.std.specs.Prelude.{◌≡◌, ◌&&◌, ◌+◌, eqb, leb};
ghost use Rattle.meaning.specs.Refusal.{rows_taken, scale_count_taken};
ghost use Rattle.meaning.specs.Calls.{reader_refusal, reader_answer};
ghost use Rattle.refusal.specs.Number.{refused_by};
ghost use Rattle.system_reader.specs.Surveys.{survey_refusal};
ghost use Rattle.system_reader.specs.Answers.{modulus_of_read, size_of_read, count_of_read, modulus_of_document, size_of_document, count_of_document};
ghost use Rattle.system_reader.specs.Answers.{starts_after, columns_after, values_after, scales_after, right_after};

use crate::fill::{fill_entries, fill_placed};
use crate::survey::{Survey, first_pass};
use field::is_modulus;
use refusal::Refusal;

// What the first line of a text says: the modulus, the size and the number of entries.
#[derive(Clone, Copy, Debug, PartialEq, Eq)]
pub struct Header {
    pub modulus: u32,
    pub size: u32,
    pub entries: u32,
}

// 4: the size, 0 to 4,096.
fn size_taken(n: u32) -> bool
    ensures { result ≡ rows_taken n }
{
    n <= 4096
}

// 5: the header's count, how many entries there are at most, and of scales all or none.
fn count_taken(count: u32, entries: usize, n: u32, scales: usize) -> bool
    ensures { result ≡ eqb count entries && leb entries 65536 && scale_count_taken n scales }
{
    count as usize == entries && entries <= 65536 && (scales == 0 || scales == n as usize)
}

// How long the lent slices are.
#[derive(Clone, Copy)]
struct Room {
    starts: usize,
    columns: usize,
    values: usize,
    scales: usize,
    right: usize,
}

impl Room {
    // 11: whether a system of size n with `count` entries goes in.
    fn holds(&self, n: u32, count: u32) -> bool
        ensures { result
            ≡ leb (n + 1) self.now.starts
            && leb count self.now.columns
            && leb count self.now.values
            && leb n self.now.scales
            && leb n self.now.right }
    {
        let size = n as usize;
        let entries = count as usize;
        size + 1 <= self.starts
            && entries <= self.columns
            && entries <= self.values
            && size <= self.scales
            && size <= self.right
    }
}

// The first check that turns a text in form down.
#[tactic(auto, unfolding(crate::specs::Surveys::survey_refusal, meaning::specs::Refusal::first))]
fn check(s: Survey, room: &Room) -> Result<(), Refusal>
    ensures { refused_by result ≡ survey_refusal (Some s) room.now.starts room.now.columns room.now.values room.now.scales room.now.right }
{
    if !is_modulus(s.p) {
        return Err(Refusal::Modulus);
    }
    if !size_taken(s.n) {
        return Err(Refusal::Size);
    }
    if !count_taken(s.count, s.entries, s.n, s.scales) {
        return Err(Refusal::Shape);
    }
    if !s.places {
        return Err(Refusal::Places);
    }
    if !s.values {
        return Err(Refusal::Values);
    }
    if !room.holds(s.n, s.count) {
        return Err(Refusal::Room);
    }
    Ok(())
}

// Fills the leading parts of the slices with the text's system and leaves the rest; a refusal leaves all.
pub fn read(
    text: &[u8],
    starts: &mut [u32],
    columns: &mut [u32],
    values: &mut [u32],
    scales: &mut [u32],
    right: &mut [u32],
) -> Result<Header, Refusal>
    ensures refusal { refused_by result ≡ reader_refusal text.now starts.old columns.old values.old scales.old right.old }
    ensures modulus { modulus_of_read result ≡ reader_answer modulus_of_document text.now starts.old columns.old values.old scales.old right.old }
    ensures size { size_of_read result ≡ reader_answer size_of_document text.now starts.old columns.old values.old scales.old right.old }
    ensures entries { count_of_read result ≡ reader_answer count_of_document text.now starts.old columns.old values.old scales.old right.old }
    ensures starts_after { starts.new ≡ starts_after text.now starts.old columns.old values.old scales.old right.old }
    ensures columns_after { columns.new ≡ columns_after text.now starts.old columns.old values.old scales.old right.old }
    ensures values_after { values.new ≡ values_after text.now starts.old columns.old values.old scales.old right.old }
    ensures scales_after { scales.new ≡ scales_after text.now starts.old columns.old values.old scales.old right.old }
    ensures right_after { right.new ≡ right_after text.now starts.old columns.old values.old scales.old right.old }
{
    let Some(s) = first_pass(text) else {
        return Err(Refusal::Form);
    };
    let room = Room {
        starts: starts.len(),
        columns: columns.len(),
        values: values.len(),
        scales: scales.len(),
        right: right.len(),
    };
    check(s, &room)?;
    let n = s.n as usize;
    fill_entries(text, s.body, s.entries, n, starts, columns, values);
    fill_placed(text, s.scaling, b"s", s.scales, n, 1, scales);
    fill_placed(text, s.right, b"b", s.elements, n, 0, right);
    Ok(Header {
        modulus: s.p,
        size: s.n,
        entries: s.count,
    })
}
