// The position that a record holds in place of the value.
ghost use Rattle.std.specs.Prelude.{◌≡◌};
ghost use Rattle.definitions.specs.Payload.{holds_position, position_of};
ghost use Rattle.fields.specs.Meaning.{channel_meant};
ghost use Rattle.payloads.specs.Meaning.{position_reply};

use chain::DataPosition;
use decoder::Channel;
use fields::FieldStart;
use refusals::Refusal;
use words::read_le;

// Whether the channel's field in the record is a position: eight whole bytes of a channel of variable length
pub(crate) fn holds_position(channel: Channel) -> bool
    ensures { result ≡ holds_position (channel_meant channel) }
{
    channel.is_variable_length() && channel.bit_offset == 0 && channel.bit_count == 64
}

// The position in a record, behind the record id and the byte offset: little-endian, whatever the data type, which is the payload's
#[tactic(auto, unfolding(definitions::specs::Payload::position_of))]
pub(crate) fn position_in(
    record: &[u8],
    record_id_size: usize,
    channel: Channel,
) -> Result<DataPosition, Refusal>
    ensures { position_reply result ≡ position_of «record».now record_id_size (channel_meant channel) }
{
    let start = FieldStart {
        skipped: record_id_size,
        byte_offset: channel.byte_offset as usize,
    };
    if start.ends_outside(record.len(), 8) {
        return Err(Refusal::FieldOutside(start.bytes_needed(8)));
    }
    let at = start.skipped + start.byte_offset;
    Ok(DataPosition(read_le(record, at)))
}
