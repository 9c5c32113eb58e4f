// Values that are kept outside their record, in a chain of payloads.
#![tactic(auto)]

mod payload;
mod position;
mod value;

pub use value::{DecodedPayload, read_payload};
