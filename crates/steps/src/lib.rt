// The two steps of a walk along a chain of data lists: the fragment at a place, and behind the last of a list the next list.
#![tactic(auto)]

mod fragment;
mod next;

pub use fragment::fragment_at;
pub use next::{Next, next_list};
