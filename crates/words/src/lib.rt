// Numbers in bytes: read and written in either byte order, and block ids compared.
#![tactic(auto)]

mod id;
mod order;
mod read;
mod word;
mod write;

pub use id::id_at;
pub use order::{Big, ByteOrder, Little};
pub use read::{be_bytes, few_le_bytes, le_bytes, read_all_le, swapped};
pub use word::{Word, read_le, write_le};
pub use write::{put_all_le, put_few_be, put_few_le, put_le};
