// The first pass over a text: whether it is in form (2), and all that the later checks want to know of it.
ghost use Rattle.std.specs.Prelude.{◌≡◌, ◌≤◌, length, drop};
ghost use Rattle.meaning.specs.Refusal.{value_taken};
ghost use Rattle.meaning.specs.Text.{lines};
ghost use Rattle.system_reader.specs.Order.{closing};
ghost use Rattle.system_reader.specs.Places.{entry_taken, place_taken, EntriesRead, PlaceWord, PlacesRead};
ghost use Rattle.system_reader.specs.Surveys.{SurveyedFrom, Surveyed};

use crate::line::line;

// Whether an `a` line's place is in range and after that of the line before.
pub(crate) fn entry_taken(n: u32, above: u32, left: u32, row: u32, column: u32) -> bool
    ensures { result ≡ entry_taken n above left row column }
{
    (1..=n).contains(&row) && (1..=n).contains(&column) && (above, left) < (row, column)
}

// The same of an `s` or a `b` line.
pub(crate) fn place_taken(n: u32, above: u32, place: u32) -> bool
    ensures { result ≡ place_taken n above place }
{
    (1..=n).contains(&place) && above < place
}

pub(crate) fn value_taken(p: u32, value: u32) -> bool
    ensures { result ≡ value_taken p value }
{
    (1..p).contains(&value)
}

// Lines of one form, one after the other: where the next one stands, how many there are, and whether all places and all values are taken.
#[derive(Clone, Copy)]
pub(crate) struct Group {
    pub next: usize,
    pub count: usize,
    pub places: bool,
    pub values: bool,
}

// Lines of a place and a value; and whether every value is 1.
#[derive(Clone, Copy)]
pub(crate) struct Placed {
    pub group: Group,
    pub ones: bool,
}

// The `a` lines from a place on.
pub(crate) fn entry_lines(text: &[u8], from: usize, p: u32, n: u32) -> Group
    requires { from ≤ length text.now }
    ensures { EntriesRead text.now from p n result }
{
    let mut group = Group {
        next: from,
        count: 0,
        places: true,
        values: true,
    };
    let mut above = 0;
    let mut left = 0;
    while let Some(l) = line::<3>(text, group.next, b"a") {
        let [row, column, value] = l.numbers;
        group.places &= entry_taken(n, above, left, row, column);
        group.values &= value_taken(p, value);
        group.count += 1;
        group.next = l.next;
        above = row;
        left = column;
    }
    group
}

// The lines with the word `s` or `b` from a place on.
pub(crate) fn placed_lines(text: &[u8], from: usize, word: &[u8], p: u32, n: u32) -> Placed
    requires from_in_bounds { from ≤ length text.now }
    requires place_word { PlaceWord word.now }
    ensures { PlacesRead word.now text.now from p n result }
{
    let mut group = Group {
        next: from,
        count: 0,
        places: true,
        values: true,
    };
    let mut above = 0;
    let mut ones = true;
    while let Some(l) = line::<2>(text, group.next, word) {
        let [place, value] = l.numbers;
        group.places &= place_taken(n, above, place);
        group.values &= value_taken(p, value);
        group.count += 1;
        group.next = l.next;
        ones &= value == 1;
        above = place;
    }
    Placed { group, ones }
}

// Whether `end` stands at a place and nothing after it.
pub(crate) fn ended(text: &[u8], from: usize) -> bool
    requires { from ≤ length text.now }
    ensures { result ≡ closing (lines (drop from text.now)) }
{
    line::<0>(text, from, b"end").is_some_and(|l| l.next == text.len())
}

// A text in form.
#[derive(Clone, Copy)]
pub(crate) struct Survey {
    pub p: u32,
    pub n: u32,
    pub count: u32,
    // how many `a`, `s` and `b` lines there are
    pub entries: usize,
    pub scales: usize,
    pub elements: usize,
    pub places: bool,
    pub values: bool,
    // where they begin
    pub body: usize,
    pub scaling: usize,
    pub right: usize,
}

// What follows a `system` line.
#[tactic(auto, using(crate::specs::Lines::scale_word, crate::specs::Lines::element_word))]
pub(crate) fn survey_from(text: &[u8], p: u32, n: u32, count: u32, body: usize) -> Option<Survey>
    requires { body ≤ length text.now }
    ensures { SurveyedFrom text.now p n count body result }
{
    let a = entry_lines(text, body, p, n);
    let x = placed_lines(text, a.next, b"s", p, n);
    let b = placed_lines(text, x.group.next, b"b", p, n);
    if !ended(text, b.group.next) {
        return None;
    }
    // where there are scales, one isn't 1
    let scaled = x.group.places && (x.group.count == 0 || !x.ones);
    Some(Survey {
        p,
        n,
        count,
        entries: a.count,
        scales: x.group.count,
        elements: b.group.count,
        places: a.places && scaled && b.group.places,
        values: a.values && x.group.values && b.group.values,
        body,
        scaling: a.next,
        right: x.group.next,
    })
}

// A text that is too long is not read.
pub(crate) fn first_pass(text: &[u8]) -> Option<Survey>
    ensures { Surveyed text.now result }
{
    if text.len() > 2_097_152 {
        return None;
    }
    let header = line::<3>(text, 0, b"system")?;
    let [p, n, count] = header.numbers;
    survey_from(text, p, n, count, header.next)
}
