// Fields that a word holds: eight bytes of the record, or all of a shorter one. Nearly all are so, and one load reads them.
ghost use Rattle.std.specs.Prelude.{◌≡◌, ◌+◌, ◌/◌, ◌%◌, ◌≤◌, ◌<◌};
ghost use Rattle.definitions.specs.Bytes.{le, field_at};
ghost use Rattle.data_types.specs.Meaning.{type_meant};
ghost use Rattle.fields.specs.Form.{form_of};
ghost use Rattle.fields.specs.Meaning.{channel_meant};
ghost use Rattle.decoder.specs.Known.{HeldOf, NumberTold, WordTold};
ghost use Rattle.std.specs.Option.{IfSome};

use bit_fields::{ByteOrder, near};
use data_types::DataType;
use fields::{Channel, Form, Number, form_of, is_no_float_width};
use words::{few_le_bytes, read_le};

// A word whose bytes, the lowest first, hold a field, and the bit of them at which it begins
#[derive(Clone, Copy, Debug, PartialEq, Eq)]
pub(crate) struct FieldWord {
    pub word: u64,
    pub from: u32,
}

impl FieldWord {
    // The field's bits, by the order of its bytes
    pub(crate) fn number<O: ByteOrder>(self, bit_count: u32) -> u64
        requires { (1 ≤ bit_count) × (self.from + bit_count ≤ 64) }
        ensures { result ≡ field_at O.order (le 8 self.word) (self.from / 8) (self.from % 8) bit_count }
    {
        near::<O>(self.word, self.from, bit_count)
    }
}

// The eight bytes from the field's first on, else the last eight of the record, else all that it has; a field of nine is in
// none. By subtraction, since the sum may be past every number that fits.
fn find_word(
    record: &[u8],
    skipped: usize,
    byte_offset: u32,
    bit_offset: u8,
    bit_count: u32,
) -> Option<FieldWord>
    requires { (bit_offset < 8) × (1 ≤ bit_count) }
    ensures { WordTold «record».now (skipped + byte_offset) bit_offset bit_count result }
{
    let length = record.len();
    // not by `checked_sub`, whose Option takes three instructions more
    if length < skipped {
        return None;
    }
    let left = length - skipped;
    let start = byte_offset as usize;
    if start + 8 <= left {
        if 64 < bit_offset as u64 + bit_count as u64 {
            return None;
        }
        return Some(FieldWord {
            word: read_le(record, skipped + start),
            from: bit_offset as u32,
        });
    }
    let over = start + 8 - left;
    if 7 < over {
        return None;
    }
    let from = 8 * over as u32 + bit_offset as u32;
    if 64 < from as u64 + bit_count as u64 {
        return None;
    }
    if length < 8 {
        return Some(FieldWord {
            word: few_le_bytes(record, 0, length),
            from: from + 8 * length as u32 - 64,
        });
    }
    Some(FieldWord {
        word: read_le(record, length - 8),
        from,
    })
}

// The same of a channel's field, where it begins in its first byte and has bits. It stands inlined on each short way.
#[inline(always)]
pub(crate) fn channel_word(
    record: &[u8],
    record_id_size: usize,
    channel: Channel,
) -> Option<FieldWord>
    ensures { IfSome result (λ found. HeldOf «record».now record_id_size (channel_meant channel) found.word found.from) }
{
    let offset = channel.bit_offset;
    let count = channel.bit_count;
    if 7 < offset {
        return None;
    }
    if count == 0 {
        return None;
    }
    find_word(record, record_id_size, channel.byte_offset, offset, count)
}

// The class of a number of a width that has a value, and whether it is big-endian
#[derive(Clone, Copy, Debug, PartialEq, Eq)]
pub(crate) struct NumberForm {
    pub number: Number,
    pub big_endian: bool,
}

pub(crate) fn number_form(data_type: DataType, bit_count: u32) -> Option<NumberForm>
    ensures { NumberTold (form_of (type_meant data_type)) bit_count result }
{
    let Form::Number(number, big_endian) = form_of(data_type) else {
        return None;
    };
    if is_no_float_width(number, bit_count) {
        return None;
    }
    if bit_count == 0 {
        return None;
    }
    Some(NumberForm { number, big_endian })
}
