// A sparse square matrix, as the calls take it: three slices.

// Where each row starts among the entries, and where the last one ends; each entry's column and value. Anyone may make one of any slices, so a call
// checks it first.
#[derive(Clone, Copy)]
pub struct Matrix<'a> {
    pub starts: &'a [u32],
    pub columns: &'a [u32],
    pub values: &'a [u32],
}
