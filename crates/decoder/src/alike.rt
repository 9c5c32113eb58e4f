// Types and channels that decode alike, for the general way, which takes numbers: a channel would have to lie in memory for it, and
// every near field would wait for that.
ghost use Rattle.std.specs.Prelude.{◌≡◌};
ghost use Rattle.definitions.specs.DataType.{type_of};
ghost use Rattle.data_types.specs.Meaning.{type_meant};
ghost use Rattle.fields.specs.Form.{form_of};
ghost use Rattle.fields.specs.Meaning.{channel_meant};
ghost use Rattle.decoder.specs.Meaning.{placed};

use data_types::DataType;
use fields::Channel;

// A code whose type decodes as this one does. All unknown types do, so the code that one carries need not come along.
pub(crate) fn decoding_code(data_type: DataType) -> u8
    ensures { form_of (type_of result) ≡ form_of (type_meant data_type) }
{
    match data_type {
        DataType::Unknown(_) => 255,
        _ => data_type.to_u8(),
    }
}

// A channel with a field at a place, and with nothing said of payloads and of validity
pub(crate) fn placed_channel(code: u8, bit_offset: u8, byte_offset: u32, bit_count: u32) -> Channel
    ensures { channel_meant result ≡ placed (type_of code) bit_offset byte_offset bit_count }
{
    let data_type = DataType::from_u8(code);
    Channel {
        data_type,
        channel_type: 0,
        bit_offset,
        byte_offset,
        bit_count,
        data: 0,
        flags: 0,
        pos_invalidation_bit: 0,
    }
}
