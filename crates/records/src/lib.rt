// Records of the joined data of a chain, and values in them.
#![tactic(auto)]

mod joined;
mod record;
mod value;

pub use joined::{copy_over, lay, window};
pub use record::{bad_size, ends_behind, read_record};
pub use value::read_value;
