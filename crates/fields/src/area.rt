// Validity where the invalidation bytes have an end. Whether a record is as long as its group's, and its invalidation bit inside, is
// asked of the numbers alone.
ghost use Rattle.std.specs.Prelude.{◌≡◌, not, ◌&&◌, ◌*◌, ltb, eqb};
ghost use Rattle.definitions.specs.Channel.{record_length, has_invalidation_bit, area_of, bounded_valid_of};
ghost use Rattle.fields.specs.Meaning.{channel_meant, group_meant, area_reply, validity_reply};

use crate::channel::Channel;
use crate::group::Group;
use crate::validity::{bit_of, check_value_validity};
use refusals::Refusal;

// By subtraction, since the sum with the id may be past every number that fits; that of two numbers of 32 bits is not.
fn is_record_length(length: usize, group: Group) -> bool
    ensures { result ≡ eqb length (record_length (group_meant group)) }
{
    let behind_id = group.data_bytes as usize + group.invalidation_bytes as usize;
    // not by `checked_sub`, whose Option takes three instructions more
    group.record_id_size <= length && length - group.record_id_size == behind_id
}

// An invalidation bit that tells, and is behind the last byte that has any
fn is_bit_outside(group: Group, channel: Channel) -> bool
    ensures { result ≡ has_invalidation_bit (channel_meant channel) && not (ltb channel.pos_invalidation_bit (8 * group.invalidation_bytes)) }
{
    let flags = channel.flags as u64;
    let bits = 8 * (group.invalidation_bytes as u64);
    bit_of(flags, 0) == 0 && bit_of(flags, 1) == 1 && bits <= channel.pos_invalidation_bit as u64
}

#[tactic(auto, unfolding(definitions::specs::Channel::area_of))]
pub fn check_area(length: usize, group: Group, channel: Channel) -> Result<(), Refusal>
    ensures { area_reply result ≡ area_of length (group_meant group) (channel_meant channel) }
{
    if !is_record_length(length, group) {
        return Err(Refusal::OtherLength);
    }
    if is_bit_outside(group, channel) {
        return Err(Refusal::BitOutside);
    }
    Ok(())
}

#[tactic(auto, unfolding(definitions::specs::Channel::bounded_valid_of))]
pub fn check_bounded_validity(
    record: &[u8],
    group: Group,
    channel: Channel,
) -> Result<bool, Refusal>
    ensures { validity_reply result ≡ bounded_valid_of «record».now (group_meant group) (channel_meant channel) }
{
    check_area(record.len(), group, channel)?;
    Ok(check_value_validity(record, group, channel))
}
