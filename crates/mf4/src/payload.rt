// A record through its chain, and the payload that it tells through another.
ghost use Rattle.std.specs.Prelude.{◌≡◌};
ghost use Rattle.definitions.specs.Payload.{payload_fetched};
ghost use Rattle.block_replies.specs.Channels.{channel_given};
ghost use Rattle.replies.specs.Values.{group_given, payload_c};
ghost use Rattle.block_replies.specs.Replies.{returned_both, returned_both_by};

use block_replies::Mf4Channel;
use chain::FileAddress;
use payloads::read_payload;
use replies::{Mf4Group, Mf4PayloadReply};

#[unsafe(no_mangle)]
pub extern "C" fn mf4_record_payload(
    file: &[u8],
    start: u64,
    number: u64,
    record_size: u64,
    group: Mf4Group,
    channel: Mf4Channel,
    record: &mut [u8],
    payload: &mut [u8],
) -> Mf4PayloadReply
    ensures { returned_both result «record».new payload.new ≡ returned_both_by payload_c (payload_fetched file.now start number record_size (group_given group) (channel_given channel) «record».old payload.old) }
{
    read_payload(
        file,
        FileAddress(start),
        number,
        record_size,
        group.into(),
        channel.into(),
        record,
        payload,
    )
    .into()
}
