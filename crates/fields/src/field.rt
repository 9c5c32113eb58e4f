// Where a channel's field lies, or why it has no value.
ghost use Rattle.std.specs.Prelude.{◌≡◌, not, ◌&&◌, ◌||◌, ◌+◌, ltb, eqb, length};
ghost use Rattle.definitions.specs.Channel.{is_integer, is_floating, is_well_described, bit_span, span_in, value_by};
ghost use Rattle.fields.specs.Meaning.{channel_meant};
ghost use Rattle.fields.specs.Form.{number_kind, content_kind, form_kind};
ghost use Rattle.fields.specs.Known.{value_at, FieldTold, FieldPlaced};

use crate::channel::Channel;
use crate::form::{Content, Form, Number};
use crate::span::{FieldStart, bit_span, content_span};
use refusals::Refusal;

// A field's place in the slice
#[derive(Clone, Copy, Debug, PartialEq, Eq)]
pub struct FieldSpan {
    pub at: usize,
    pub length: usize,
}

pub fn is_over_a_word(number: Number, bit_count: u32) -> bool
    ensures { result ≡ is_integer (number_kind number) && ltb 64 bit_count }
{
    matches!(number, Number::Unsigned | Number::Signed) && 64 < bit_count
}

fn is_float_width(bit_count: u32) -> bool
    ensures { result ≡ eqb bit_count 32 || eqb bit_count 64 }
{
    matches!(bit_count, 32 | 64)
}

pub fn is_no_float_width(number: Number, bit_count: u32) -> bool
    ensures { result ≡ is_floating (number_kind number) && not (eqb bit_count 32 || eqb bit_count 64) }
{
    matches!(number, Number::Float) && !is_float_width(bit_count)
}

// Whether a number's description passes each test that asks nothing of the slice
pub fn is_well_described(number: Number, channel: Channel) -> bool
    ensures { result ≡ is_well_described (number_kind number) (channel_meant channel) }
{
    channel.bit_count != 0
        && channel.bit_offset <= 7
        && !is_over_a_word(number, channel.bit_count)
        && !is_no_float_width(number, channel.bit_count)
}

// A number's field, or the first cause to have none
#[tactic(auto, unfolding(definitions::specs::Channel::value_by))]
fn find_number(
    record: &[u8],
    start: FieldStart,
    number: Number,
    channel: Channel,
) -> Result<FieldSpan, Refusal>
    ensures { FieldTold (number_kind number) (value_by (number_kind number) (start.skipped + start.byte_offset) (bit_span (channel_meant channel)) «record».now (channel_meant channel)) «record».now (channel_meant channel) result × FieldPlaced (start.skipped + start.byte_offset) (bit_span (channel_meant channel)) result }
{
    let length = bit_span(channel);
    let no_bits = channel.bit_count == 0;
    let past_a_byte = 7 < channel.bit_offset;
    let over_a_word = is_over_a_word(number, channel.bit_count);
    let outside = start.ends_outside(record.len(), length);
    let needed = start.bytes_needed(length);
    let no_float_width = is_no_float_width(number, channel.bit_count);
    if no_bits {
        return Err(Refusal::NoBits);
    }
    if past_a_byte {
        return Err(Refusal::BadBitOffset);
    }
    if over_a_word {
        return Err(Refusal::IntegerTooWide);
    }
    if outside {
        return Err(Refusal::FieldOutside(needed));
    }
    if no_float_width {
        return Err(Refusal::BadFloatWidth);
    }
    Ok(FieldSpan {
        at: start.skipped + start.byte_offset,
        length,
    })
}

// What is no number has only to end inside the slice.
#[tactic(auto, using(crate::proofs::Fields::content_outside, crate::proofs::Fields::content_there), unfolding(definitions::specs::Channel::value_by))]
fn find_content(
    record: &[u8],
    start: FieldStart,
    payload: bool,
    content: Content,
    channel: Channel,
) -> Result<FieldSpan, Refusal>
    ensures { FieldTold (content_kind content) (value_at (content_kind content) payload «record».now (start.skipped + start.byte_offset) (channel_meant channel)) «record».now (channel_meant channel) result × FieldPlaced (start.skipped + start.byte_offset) (span_in payload (content_kind content) (length «record».now) (channel_meant channel)) result }
{
    let length = content_span(payload, content, record.len(), channel);
    if start.ends_outside(record.len(), length) {
        let bytes = start.bytes_needed(length);
        return Err(Refusal::FieldOutside(bytes));
    }
    Ok(FieldSpan {
        at: start.skipped + start.byte_offset,
        length,
    })
}

// The field of a form. All refusals of a value are decided here.
pub fn find_field(
    record: &[u8],
    start: FieldStart,
    payload: bool,
    form: Form,
    channel: Channel,
) -> Result<FieldSpan, Refusal>
    ensures { FieldTold (form_kind form) (value_at (form_kind form) payload «record».now (start.skipped + start.byte_offset) (channel_meant channel)) «record».now (channel_meant channel) result × FieldPlaced (start.skipped + start.byte_offset) (span_in payload (form_kind form) (length «record».now) (channel_meant channel)) result }
{
    match form {
        Form::Number(number, _) => find_number(record, start, number, channel),
        Form::Other(content) => { find_content(record, start, payload, content, channel) }
    }
}
