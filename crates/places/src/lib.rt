// Places of a walk along a chain of data lists, and what stands at an address of the file: a data block, or a list of the chain.
#![tactic(auto)]

mod block;
mod limits;
mod list;
mod place;

pub use block::{DataBlock, data_block_at, data_of};
pub use limits::{FILE_LIMIT, LIST_LIMIT};
pub use list::list_at;
pub use place::{DataPosition, FileAddress, OpenList, Place, bytes_from};
