// The calls for C, one thin function each; include/mf4.h says what they take, answer and refuse.
// Calls that are alike stay apart: each is a name that C has.
#![tactic(auto)]

mod channel_block;
mod fetches;
mod header;
mod list;
mod overlap;
mod payload;
mod reports;
mod stored;
mod tables;
mod texts;
mod types;
mod unbounded;
mod valid_values;
mod validity;
mod values;
mod version;

pub use block_replies::{
    Mf4Channel, Mf4ChannelBlock, Mf4ChannelReply, Mf4Header, Mf4HeaderReply, Mf4ListReply,
    Mf4WrittenReply,
};
pub use channel_block::{mf4_read_channel, mf4_write_channel};
pub use fetches::{mf4_data_length, mf4_read_record, mf4_record_value};
pub use header::{mf4_read_header, mf4_write_header};
pub use list::{mf4_read_list, mf4_write_list_equal, mf4_write_list_variable};
pub use overlap::mf4_first_overlap;
pub use payload::mf4_record_payload;
pub use replies::{
    Mf4DoneReply, Mf4Group, Mf4LengthReply, Mf4Number, Mf4OverlapReply, Mf4PayloadReply, Mf4Point,
    Mf4ReportReply, Mf4TextReply, Mf4ValidValueReply, Mf4ValidityReply, Mf4ValueReply,
};
pub use reports::mf4_report;
pub use stored::mf4_write_value;
pub use tables::{
    mf4_extend_table, mf4_open_table, mf4_shorten_table, mf4_table_record, mf4_table_value,
};
pub use texts::{mf4_text_latin1, mf4_text_utf8, mf4_text_utf16_be, mf4_text_utf16_le};
pub use types::{mf4_default_bits, mf4_type_code};
pub use unbounded::{mf4_check_validity_unbounded, mf4_decode_valid_value_unbounded};
pub use valid_values::mf4_decode_valid_value;
pub use validity::mf4_check_validity;
pub use values::{mf4_decode_double_bits, mf4_decode_value};
pub use version::mf4_version;
