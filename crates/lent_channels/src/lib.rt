// What walks along a list of channel descriptions that C lends.
#![tactic(auto)]

mod overlap;

pub use overlap::first_overlap;
