// Whether a channel's value is valid, by its flags and its invalidation bit.
ghost use Rattle.std.specs.Prelude.{◌≡◌, ◌+◌, ◌/◌, ◌<◌, get_or};
ghost use Rattle.definitions.specs.Bytes.{bit};
ghost use Rattle.definitions.specs.Channel.{valid_of};
ghost use Rattle.fields.specs.Meaning.{channel_meant, group_meant};

use crate::channel::Channel;
use crate::group::Group;
use crate::span::FieldStart;
use bit_fields::cut;

pub(crate) fn bit_of(word: u64, place: u32) -> u64
    requires { place < 64 }
    ensures { result ≡ bit word place }
{
    cut(word, place, 1)
}

// A byte beyond the slice reads 0.
fn byte_after(record: &[u8], group: Group, place: u32) -> u64
    ensures { result ≡ get_or «record».now (group.record_id_size + group.data_bytes + place) 0 }
{
    let start = FieldStart {
        skipped: group.record_id_size,
        byte_offset: group.data_bytes as usize,
    };
    if start.ends_outside(record.len(), place as usize + 1) {
        return 0;
    }
    record[group.record_id_size + group.data_bytes as usize + place as usize] as u64
}

// The crate's reading: a bit that is not in the slice is clear, wherever the group's records end.
#[tactic(auto, unfolding(definitions::specs::Channel::valid_of))]
pub fn check_value_validity(record: &[u8], group: Group, channel: Channel) -> bool
    ensures { result ≡ valid_of «record».now (group_meant group) (channel_meant channel) }
{
    let flags = channel.flags as u64;
    // bit 0: every value is invalid
    if bit_of(flags, 0) == 1 {
        return false;
    }
    // bit 1: the invalidation bit tells
    if bit_of(flags, 1) == 0 {
        return true;
    }
    let position = channel.pos_invalidation_bit;
    let byte = byte_after(record, group, position / 8);
    bit_of(byte, position % 8) == 0
}
