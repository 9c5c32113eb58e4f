// The bits of a record that a number's field takes.
ghost use Rattle.std.specs.Prelude.{◌≡◌, ◌+◌};
ghost use Rattle.definitions.specs.Bytes.{bytes_for};
ghost use Rattle.definitions.specs.DataType.{order_of};
ghost use Rattle.data_types.specs.Meaning.{type_meant};
ghost use Rattle.encodings.specs.Meaning.{order_meant};
ghost use Rattle.fields.specs.Meaning.{channel_meant};
ghost use Rattle.overlaps.specs.Meaning.{field_meant, bare};

use data_types::DataType;
use fields::Channel;

// All that tells where the bits of a number stand
#[derive(Clone, Copy)]
pub struct FieldPlace {
    pub big_endian: bool,
    pub bit_offset: u8,
    pub byte_offset: u32,
    pub bit_count: u32,
}

fn is_big_endian(data_type: DataType) -> bool
    ensures { order_meant result ≡ order_of (type_meant data_type) }
{
    matches!(
        data_type,
        DataType::UnsignedIntegerBE
            | DataType::SignedIntegerBE
            | DataType::FloatBE
            | DataType::ComplexBE
    )
}

pub(crate) fn field_place(channel: Channel) -> FieldPlace
    ensures { field_meant result ≡ bare (channel_meant channel) }
{
    FieldPlace {
        big_endian: is_big_endian(channel.data_type),
        bit_offset: channel.bit_offset,
        byte_offset: channel.byte_offset,
        bit_count: channel.bit_count,
    }
}

pub(crate) fn byte_count(field: FieldPlace) -> u64
    ensures { result ≡ bytes_for field.bit_offset field.bit_count }
{
    (field.bit_offset as u64 + field.bit_count as u64 + 7) / 8
}

// The record byte behind the field. Two numbers of 32 bits make no sum that wraps.
pub(crate) fn byte_end(field: FieldPlace) -> u64
    ensures { result ≡ field.byte_offset + bytes_for field.bit_offset field.bit_count }
{
    field.byte_offset as u64 + byte_count(field)
}
