// Validity as mf4-rs reads it: the invalidation bytes have no end but that of what is given.
ghost use Rattle.std.specs.Prelude.{◌≡◌};
ghost use Rattle.definitions.specs.Channel.{valid_of, valid_value_of};
ghost use Rattle.replies.specs.Replies.{flag_c};
ghost use Rattle.block_replies.specs.Channels.{channel_given};
ghost use Rattle.replies.specs.Values.{group_given, valid_value_c};

use block_replies::Mf4Channel;
use decoder::{check_value_validity, decode_channel_value_with_validity};
use replies::{Mf4Group, Mf4ValidValueReply, flag};

#[unsafe(no_mangle)]
pub extern "C" fn mf4_check_validity_unbounded(
    record: &[u8],
    group: Mf4Group,
    channel: Mf4Channel,
) -> u8
    ensures { result ≡ flag_c (valid_of «record».now (group_given group) (channel_given channel)) }
{
    flag(check_value_validity(record, group.into(), channel.into()))
}

#[unsafe(no_mangle)]
pub extern "C" fn mf4_decode_valid_value_unbounded(
    record: &[u8],
    group: Mf4Group,
    channel: Mf4Channel,
) -> Mf4ValidValueReply
    ensures { result ≡ valid_value_c (valid_value_of «record».now (group_given group) (channel_given channel)) }
{
    decode_channel_value_with_validity(record, group.into(), channel.into()).into()
}
