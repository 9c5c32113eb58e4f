// The encodings of a text, and where a text in each of them stops.
#![tactic(auto)]

mod encoding;
mod stop;

pub use encoding::Encoding;
pub use stop::text_end;
