// Bit fields of bytes: cut out, given a sign, and replaced, in either byte order.
#![tactic(auto)]

mod read;
mod replace;
mod signed;

pub use read::{cut, field, near};
pub use replace::put_field;
pub use signed::signed_of;
pub use words::{Big, ByteOrder, Little};
