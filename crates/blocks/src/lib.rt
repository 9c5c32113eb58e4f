// Blocks of a file: the header and the data list.
#![tactic(auto)]

mod data_list;
mod header;

pub use data_list::DataListBlock;
pub use header::{BlockHeader, put_header, size_with_links};
