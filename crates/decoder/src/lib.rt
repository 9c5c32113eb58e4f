// A channel's value in a record, as a double too, and with its validity.
#![tactic(auto)]

mod alike;
mod decode;
mod double;
mod integer;
mod near;

pub use decode::{
    any_bounded_value, any_value, decode_channel_value, decode_channel_value_with_bounded_validity,
    decode_channel_value_with_validity,
};
pub use double::decode_f64_from_record;
pub use fields::{
    Channel, DecodedChannelValue, DecodedValue, Group, check_bounded_validity, check_value_validity,
};
pub use refusals::Refusal;
