// A number written into a channel's field of a record.
ghost use Rattle.std.specs.Prelude.{◌≡◌, ◌^◌, ◌<◌};
ghost use Rattle.definitions.specs.Bytes.{field_set};
ghost use Rattle.definitions.specs.WrittenValue.{value_written};
ghost use Rattle.fields.specs.Meaning.{channel_meant};
ghost use Rattle.fields.specs.Form.{order_meant};
ghost use Rattle.fields.specs.Known.{FieldBounds};
ghost use Rattle.encoder.specs.Meaning.{given_meant, outcome};
ghost use Rattle.encoder.specs.Known.{TakesNone, AlwaysRefused, is_readable, Chosen};

use crate::bits::Width;
use crate::number::NumberGiven;
use bit_fields::{Big, Little, put_field};
use decoder::any_value;
use fields::{Channel, FieldStart, Form, Number, form_of, is_well_described};
use refusals::Refusal;

// The field to write to, and its new bits
#[derive(Clone, Copy, Debug, PartialEq, Eq)]
pub(crate) struct FieldChosen {
    pub at: usize,
    pub big_endian: bool,
    pub bits: u64,
}

// Where nothing can be written, whatever is given: what decoding refuses, and else the kind
fn other_refusal(record: &[u8], record_id_size: usize, channel: Channel) -> Refusal
    requires { TakesNone «record».now record_id_size (channel_meant channel) }
    ensures { AlwaysRefused «record».now record_id_size (channel_meant channel) result }
{
    match any_value(record, record_id_size, channel) {
        Ok(_) => Refusal::OtherKind,
        Err(why) => why,
    }
}

// Whether a number's field passes all tests of decoding, in a record of `length` bytes. A refusal is left to the decoder: asked for
// here as well, `find_field` would be compiled by itself, and every decoding by the general way would call it.
fn is_readable(length: usize, record_id_size: usize, number: Number, channel: Channel) -> bool
    ensures { result ≡ is_readable length record_id_size number (channel_meant channel) }
{
    let start = FieldStart {
        skipped: record_id_size,
        byte_offset: channel.byte_offset as usize,
    };
    let span = (channel.bit_offset as usize + channel.bit_count as usize + 7) / 8;
    is_well_described(number, channel) && !start.ends_outside(length, span)
}

// Nothing is written before all is tested: first what decoding would refuse, then the number given.
fn choose_field(
    record: &[u8],
    record_id_size: usize,
    channel: Channel,
    given: NumberGiven,
) -> Result<FieldChosen, Refusal>
    ensures { Chosen «record».now record_id_size (channel_meant channel) (given_meant given) result }
{
    if channel.is_variable_length() {
        return Err(other_refusal(record, record_id_size, channel));
    }
    let data_type = channel.data_type;
    let form = form_of(data_type);
    let Form::Number(number, big_endian) = form else {
        return Err(other_refusal(record, record_id_size, channel));
    };
    if !is_readable(record.len(), record_id_size, number, channel) {
        return Err(other_refusal(record, record_id_size, channel));
    }
    let width = Width {
        count: channel.bit_count,
    };
    let bits = width.number_bits(number, given)?;
    Ok(FieldChosen {
        at: record_id_size + channel.byte_offset as usize,
        big_endian,
        bits,
    })
}

// The bits of the field that was chosen, in its order
fn put_chosen(record: &mut [u8], field: FieldChosen, bit_offset: u32, bit_count: u32)
    requires { FieldBounds «record».old field.at bit_offset bit_count × (field.bits < 2 ^ bit_count) }
    ensures { «record».new ≡ field_set (order_meant field.big_endian) «record».old field.at bit_offset bit_count field.bits }
{
    if field.big_endian {
        put_field::<Big>(record, field.at, bit_offset, bit_count, field.bits);
    } else {
        put_field::<Little>(record, field.at, bit_offset, bit_count, field.bits);
    }
}

// What is given, written so that decoding gives it back. A refusal changes nothing.
pub fn encode_channel_value(
    record_id_size: usize,
    channel: Channel,
    given: NumberGiven,
    record: &mut [u8],
) -> Result<(), Refusal>
    ensures { outcome result «record».new ≡ value_written «record».old record_id_size (channel_meant channel) (given_meant given) }
{
    let field = choose_field(record, record_id_size, channel, given)?;
    put_chosen(record, field, channel.bit_offset as u32, channel.bit_count);
    Ok(())
}
