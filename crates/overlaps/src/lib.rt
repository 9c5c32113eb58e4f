// The first two channels of a list whose fields share a bit of the record.
#![tactic(auto)]

mod answer;
mod entry;
mod pair;
mod place;
mod run;
mod search;

pub use answer::Pair;
pub use search::first_overlap;
