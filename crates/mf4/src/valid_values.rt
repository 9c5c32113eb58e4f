// A channel's value with its validity, in a record of its group.
ghost use Rattle.std.specs.Prelude.{◌≡◌};
ghost use Rattle.definitions.specs.Channel.{bounded_value_of};
ghost use Rattle.block_replies.specs.Channels.{channel_given};
ghost use Rattle.replies.specs.Values.{group_given, valid_value_c};

use block_replies::Mf4Channel;
use decoder::decode_channel_value_with_bounded_validity;
use replies::{Mf4Group, Mf4ValidValueReply};

#[unsafe(no_mangle)]
pub extern "C" fn mf4_decode_valid_value(
    record: &[u8],
    group: Mf4Group,
    channel: Mf4Channel,
) -> Mf4ValidValueReply
    ensures { result ≡ valid_value_c (bounded_value_of «record».now (group_given group) (channel_given channel)) }
{
    decode_channel_value_with_bounded_validity(record, group.into(), channel.into()).into()
}
