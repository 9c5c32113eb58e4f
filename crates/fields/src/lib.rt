// Where a channel's field lies in a record, what its bits or bytes stand for, and whether it is valid.
#![tactic(auto)]

mod area;
mod channel;
mod content;
mod field;
mod form;
mod group;
mod number;
mod span;
mod validity;
mod value;

pub use area::{check_area, check_bounded_validity};
pub use channel::Channel;
pub use content::content_at;
pub use field::{FieldSpan, find_field, is_no_float_width, is_over_a_word, is_well_described};
pub use form::{Content, Form, Number, form_of};
pub use group::Group;
pub use number::{float_bits, number_at, number_value};
pub use span::FieldStart;
pub use validity::check_value_validity;
pub use value::{DecodedChannelValue, DecodedValue};
