// Whether a channel's value is valid, in a record of its group.
ghost use Rattle.std.specs.Prelude.{◌≡◌};
ghost use Rattle.definitions.specs.Channel.{bounded_valid_of};
ghost use Rattle.block_replies.specs.Channels.{channel_given};
ghost use Rattle.replies.specs.Values.{group_given, validity_c};

use block_replies::Mf4Channel;
use decoder::check_bounded_validity;
use replies::{Mf4Group, Mf4ValidityReply};

#[unsafe(no_mangle)]
pub extern "C" fn mf4_check_validity(
    record: &[u8],
    group: Mf4Group,
    channel: Mf4Channel,
) -> Mf4ValidityReply
    ensures { result ≡ validity_c (bounded_valid_of «record».now (group_given group) (channel_given channel)) }
{
    check_bounded_validity(record, group.into(), channel.into()).into()
}
