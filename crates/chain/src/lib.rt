// A chain of data lists: whether it is accepted, and where a position of the joined data stands. Whoever walks along one names
// this crate alone.
#![tactic(auto)]

mod acceptance;
mod walk;

pub use acceptance::{Located, data_length, locate_data};
pub use places::{DataBlock, DataPosition, FileAddress, OpenList, Place, data_block_at, data_of};
pub use steps::{Next, fragment_at, next_list};
pub use walk::{Fragment, Step, next_fragment, next_step};

#[cfg(test)]
mod tests;
