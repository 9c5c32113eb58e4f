// A channel's value in a record.
ghost use Rattle.std.specs.Prelude.{◌≡◌, ◌+◌, ◌/◌, ◌%◌};
ghost use Rattle.std.specs.Option.{IfSome};
ghost use Rattle.definitions.specs.Reply.{answer};
ghost use Rattle.definitions.specs.Bytes.{le, field_at};
ghost use Rattle.definitions.specs.DataType.{type_of};
ghost use Rattle.definitions.specs.Channel.{value_of, valid_value_of, bounded_value_of};
ghost use Rattle.fields.specs.Meaning.{channel_meant, group_meant, value_meant, value_reply, valid_value_reply, validity_reply};
ghost use Rattle.fields.specs.Form.{order_meant, form_of, form_kind, form_value, number_value};
ghost use Rattle.fields.specs.Known.{Sound, value_at};
ghost use Rattle.decoder.specs.Meaning.{judged_reply, placed};
ghost use Rattle.decoder.specs.Known.{InWord};

use crate::alike::{decoding_code, placed_channel};
use crate::near::{FieldWord, NumberForm, channel_word, number_form};
use bit_fields::{Big, Little};
use fields::{
    Channel, DecodedChannelValue, DecodedValue, FieldSpan, FieldStart, Form, Group, Number,
    check_bounded_validity, check_value_validity, content_at, find_field, form_of, number_at,
    number_value,
};
use refusals::Refusal;

fn value_at(record: &[u8], field: FieldSpan, form: Form, channel: Channel) -> DecodedValue
    requires { Sound (form_kind form) «record».now field.at field.length (channel_meant channel) }
    ensures { value_meant result ≡ form_value form «record».now field.at field.length (channel_meant channel) }
{
    match form {
        Form::Number(number, big_endian) => {
            let offset = channel.bit_offset as u32;
            let x = number_at(record, field.at, big_endian, offset, channel.bit_count);
            number_value(number, channel.bit_count, x)
        }
        Form::Other(content) => content_at(record, field, content),
    }
}

// The value of the field at a place
#[tactic(auto, using(crate::proofs::LaidAnew::value_placed, fields::proofs::Values::valued))]
fn far_value(
    record: &[u8],
    skipped: usize,
    byte_offset: usize,
    payload: bool,
    code: u8,
    bit_offset: u8,
    bit_count: u32,
) -> Result<DecodedValue, Refusal>
    ensures { value_reply result ≡ value_at (form_kind (form_of (type_of code))) payload «record».now (skipped + byte_offset) (placed (type_of code) bit_offset 0 bit_count) }
{
    let channel = placed_channel(code, bit_offset, 0, bit_count);
    let form = form_of(channel.data_type);
    let start = FieldStart {
        skipped,
        byte_offset,
    };
    let field = find_field(record, start, payload, form, channel)?;
    Ok(value_at(record, field, form, channel))
}

// The value of any field, by the general way. A payload has no record id, and its field no offset.
pub fn any_value(
    record: &[u8],
    record_id_size: usize,
    channel: Channel,
) -> Result<DecodedValue, Refusal>
    ensures { value_reply result ≡ value_of «record».now record_id_size (channel_meant channel) }
{
    let code = decoding_code(channel.data_type);
    let offset = channel.bit_offset;
    let count = channel.bit_count;
    if channel.is_variable_length() {
        return far_value(record, 0, 0, true, code, offset, count);
    }
    let byte_offset = channel.byte_offset as usize;
    far_value(
        record,
        record_id_size,
        byte_offset,
        false,
        code,
        offset,
        count,
    )
}

// The value of a number in a word
fn near_value(form: NumberForm, field: FieldWord, bit_count: u32) -> DecodedValue
    requires { InWord form.number field.from bit_count }
    ensures { value_meant result ≡ number_value form.number bit_count (field_at (order_meant form.big_endian) (le 8 field.word) (field.from / 8) (field.from % 8) bit_count) }
{
    let x = if form.big_endian {
        field.number::<Big>(bit_count)
    } else {
        field.number::<Little>(bit_count)
    };
    number_value(form.number, bit_count, x)
}

// A number's value where a word holds its field, and none where the general way has to look.
#[inline(always)]
fn short_value(record: &[u8], record_id_size: usize, channel: Channel) -> Option<DecodedValue>
    ensures { IfSome result (λ v. answer (value_meant v) ≡ value_of «record».now record_id_size (channel_meant channel)) }
{
    if channel.is_variable_length() {
        return None;
    }
    let count = channel.bit_count;
    let form = number_form(channel.data_type, count)?;
    let field = channel_word(record, record_id_size, channel)?;
    Some(near_value(form, field, count))
}

// The value of a channel in a record, by the short way where a word holds the field. It stands inlined in the reading with bounded
// validity too.
#[inline(always)]
pub fn decode_channel_value(
    record: &[u8],
    record_id_size: usize,
    channel: Channel,
) -> Result<DecodedValue, Refusal>
    ensures { value_reply result ≡ value_of «record».now record_id_size (channel_meant channel) }
{
    match short_value(record, record_id_size, channel) {
        Some(value) => Ok(value),
        None => any_value(record, record_id_size, channel),
    }
}

// A value with its validity, or what refuses the one or else the other
fn judged(
    read: Result<DecodedValue, Refusal>,
    validity: Result<bool, Refusal>,
) -> Result<DecodedChannelValue, Refusal>
    ensures { valid_value_reply result ≡ judged_reply (validity_reply validity) (value_reply read) }
{
    let value = read?;
    let is_valid = validity?;
    Ok(DecodedChannelValue { value, is_valid })
}

// The crate's reading, by the general way: the short one is for the reading below, which is the one to use.
#[tactic(auto, unfolding(definitions::specs::Channel::valid_value_of))]
pub fn decode_channel_value_with_validity(
    record: &[u8],
    group: Group,
    channel: Channel,
) -> Result<DecodedChannelValue, Refusal>
    ensures { valid_value_reply result ≡ valid_value_of «record».now (group_meant group) (channel_meant channel) }
{
    let is_valid = check_value_validity(record, group, channel);
    judged(
        any_value(record, group.record_id_size, channel),
        Ok(is_valid),
    )
}

// The validity is an answer before the value is looked for: asked behind it, it cost every way to a value more.
#[tactic(auto, unfolding(definitions::specs::Channel::bounded_value_of))]
pub fn decode_channel_value_with_bounded_validity(
    record: &[u8],
    group: Group,
    channel: Channel,
) -> Result<DecodedChannelValue, Refusal>
    ensures { valid_value_reply result ≡ bounded_value_of «record».now (group_meant group) (channel_meant channel) }
{
    let validity = check_bounded_validity(record, group, channel);
    judged(
        decode_channel_value(record, group.record_id_size, channel),
        validity,
    )
}

// The same by the general way, for callers that have done much already.
#[tactic(auto, unfolding(definitions::specs::Channel::bounded_value_of))]
pub fn any_bounded_value(
    record: &[u8],
    group: Group,
    channel: Channel,
) -> Result<DecodedChannelValue, Refusal>
    ensures { valid_value_reply result ≡ bounded_value_of «record».now (group_meant group) (channel_meant channel) }
{
    let validity = check_bounded_validity(record, group, channel);
    judged(any_value(record, group.record_id_size, channel), validity)
}
