// The value of a payload, with the validity that its record tells.
ghost use Rattle.std.specs.Prelude.{◌≡◌};
ghost use Rattle.definitions.specs.Payload.{payload_value_of, payload_fetched};
ghost use Rattle.fields.specs.Meaning.{channel_meant, group_meant};
ghost use Rattle.payloads.specs.Meaning.{payload_reply, payload_fetched_by};

use crate::payload::store_payload;
use crate::position::holds_position;
use chain::FileAddress;
use decoder::{Channel, DecodedValue, Group, any_value, check_value_validity};
use records::read_record;
use refusals::Refusal;

// Texts and bytes stand in the payload's buffer.
#[derive(Clone, Copy)]
pub struct DecodedPayload {
    pub value: DecodedValue,
    pub is_valid: bool,
    // the bytes of the payload
    pub length: u64,
}

// The value from the payload's bytes alone, and the validity from those of the record
#[tactic(auto, unfolding(definitions::specs::Payload::payload_value_of))]
fn payload_value(
    record: &[u8],
    payload: &[u8],
    group: Group,
    channel: Channel,
) -> Result<DecodedPayload, Refusal>
    ensures { payload_reply result ≡ payload_value_of «record».now (group_meant group) (channel_meant channel) payload.now }
{
    let value = any_value(payload, group.record_id_size, channel)?;
    Ok(DecodedPayload {
        value,
        is_valid: check_value_validity(record, group, channel),
        length: payload.len() as u64,
    })
}

// A record, and a payload, that is fetched stays in its buffer, whatever is refused then. What is asked for stands apart, as C
// gives it.
#[tactic(auto, unfolding(definitions::specs::Payload::payload_fetched))]
pub fn read_payload(
    file: &[u8],
    start: FileAddress,
    number: u64,
    record_size: u64,
    group: Group,
    channel: Channel,
    record: &mut [u8],
    payload: &mut [u8],
) -> Result<DecodedPayload, Refusal>
    ensures { payload_fetched_by result «record».new payload.new ≡ payload_fetched file.now start.0 number record_size (group_meant group) (channel_meant channel) «record».old payload.old }
{
    if !holds_position(channel) {
        return Err(Refusal::NoPosition);
    }
    read_record(file, start, number, record_size, record)?;
    let fetched = &record[..record_size as usize];
    let length = store_payload(file, fetched, group.record_id_size, channel, payload)?;
    payload_value(fetched, &payload[..length], group, channel)
}
