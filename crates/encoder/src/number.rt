// What is given to be written.

// A double by its pattern; `Other` is what is no number.
#[derive(Clone, Copy, Debug, PartialEq, Eq)]
pub enum NumberGiven {
    Unsigned(u64),
    Signed(i64),
    Double(u64),
    Other,
}
