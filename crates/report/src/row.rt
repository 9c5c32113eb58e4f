// How far a row of records was read.
use tally::Tally;

// The record that comes next, and the tally of those before it
#[derive(Clone, Copy)]
pub(crate) struct Row {
    pub next: usize,
    pub tally: Tally,
}
