// One line of a channel over all records of a chain: each fragment is read once, and its whole records in their place.
#![tactic(auto)]

mod feed;
mod in_place;
mod layout;
mod report;
mod row;
mod run;
mod walk;

pub use report::report_channel;
