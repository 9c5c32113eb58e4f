// Numbers written into the fields of a record.
#![tactic(auto)]

mod bits;
mod encode;
mod number;

pub use encode::encode_channel_value;
pub use number::NumberGiven;
