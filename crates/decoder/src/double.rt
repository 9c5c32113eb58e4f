// A channel's value in a record as the pattern of a double, with no value made on the way.
ghost use Rattle.std.specs.Prelude.{◌≡◌, not, ◌||◌, ◌^◌, ◌<◌, eqb, if◌then◌else◌};
ghost use Rattle.definitions.specs.Ieee754.{nan_pattern};
ghost use Rattle.definitions.specs.Channel.{float_bits, record_double};
ghost use Rattle.definitions.specs.DataType.{type_of};
ghost use Rattle.fields.specs.Meaning.{channel_meant};
ghost use Rattle.fields.specs.Known.{Fitting};
ghost use Rattle.decoder.specs.Meaning.{number_double, placed};
ghost use Rattle.decoder.specs.Known.{Near};

use crate::alike::{decoding_code, placed_channel};
use crate::integer::{signed_double, unsigned_double};
use crate::near::{FieldWord, channel_word};
use bit_fields::{Big, Little};
use data_types::DataType;
use doubles::{NAN, widen};
use fields::{Channel, FieldStart, Form, Number, find_field, float_bits, form_of, number_at};

fn number_double(number: Number, bit_count: u32, x: u64) -> u64
    requires { Fitting number bit_count x }
    ensures { result ≡ number_double number bit_count x }
{
    match number {
        Number::Unsigned => unsigned_double(bit_count, x),
        Number::Signed => signed_double(bit_count, x),
        Number::Float => float_bits(bit_count, x),
    }
}

// The double of any field in the record itself, kept apart so that its registers stay off the short way. The record lies in memory
// for it too, so it is lent as a part of itself, which is laid down on this way alone.
#[inline(never)]
fn far_double(
    record: &[u8],
    record_id_size: usize,
    code: u8,
    bit_offset: u8,
    byte_offset: u32,
    bit_count: u32,
) -> u64
    ensures { result ≡ record_double «record».now record_id_size (placed (type_of code) bit_offset byte_offset bit_count) }
{
    let channel = placed_channel(code, bit_offset, byte_offset, bit_count);
    let form = form_of(channel.data_type);
    let Form::Number(number, big_endian) = form else {
        return NAN;
    };
    let start = FieldStart {
        skipped: record_id_size,
        byte_offset: channel.byte_offset as usize,
    };
    let bit_offset = channel.bit_offset as u32;
    match find_field(record, start, false, form, channel) {
        Ok(field) => {
            let x = number_at(record, field.at, big_endian, bit_offset, channel.bit_count);
            number_double(number, channel.bit_count, x)
        }
        Err(_) => NAN,
    }
}

// A float of another width has no value.
fn near_float(bit_count: u32, x: u64) -> u64
    requires { x < 2 ^ bit_count }
    ensures { result ≡ (if not (eqb bit_count 32 || eqb bit_count 64) then nan_pattern else float_bits bit_count x) }
{
    match bit_count {
        64 => x,
        32 => widen(x as u32),
        _ => NAN,
    }
}

// The double of a field that a word holds, where it is a number's. Each type has its way: by the class of its number and the order
// of its bytes, as a value goes, it took a third more.
fn near_double(record: &[u8], record_id_size: usize, channel: Channel, field: FieldWord) -> u64
    requires { Near «record».now record_id_size (channel_meant channel) field.word field.from }
    ensures { result ≡ record_double «record».now record_id_size (channel_meant channel) }
{
    let count = channel.bit_count;
    match channel.data_type {
        DataType::UnsignedIntegerLE => unsigned_double(count, field.number::<Little>(count)),
        DataType::UnsignedIntegerBE => unsigned_double(count, field.number::<Big>(count)),
        DataType::SignedIntegerLE => signed_double(count, field.number::<Little>(count)),
        DataType::SignedIntegerBE => signed_double(count, field.number::<Big>(count)),
        DataType::FloatLE => near_float(count, field.number::<Little>(count)),
        DataType::FloatBE => near_float(count, field.number::<Big>(count)),
        _ => NAN,
    }
}

pub fn decode_f64_from_record(record: &[u8], record_id_size: usize, channel: Channel) -> u64
    ensures { result ≡ record_double «record».now record_id_size (channel_meant channel) }
{
    if channel.is_variable_length() {
        return NAN;
    }
    let Some(field) = channel_word(record, record_id_size, channel) else {
        // asked here, since the general way would take three times as long to say so
        if channel.bit_count == 0 {
            return NAN;
        }
        return far_double(
            &record[0..],
            record_id_size,
            decoding_code(channel.data_type),
            channel.bit_offset,
            channel.byte_offset,
            channel.bit_count,
        );
    };
    near_double(record, record_id_size, channel, field)
}
