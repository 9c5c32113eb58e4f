// Numbers written into records.
ghost use Rattle.std.specs.Prelude.{◌≡◌};
ghost use Rattle.definitions.specs.WrittenValue.{value_written};
ghost use Rattle.block_replies.specs.Replies.{returned, returned_by};
ghost use Rattle.replies.specs.Replies.{done_c};
ghost use Rattle.block_replies.specs.Channels.{channel_given};
ghost use Rattle.replies.specs.Stored.{number_given};

use block_replies::Mf4Channel;
use encoder::encode_channel_value;
use replies::{Mf4DoneReply, Mf4Number};

#[unsafe(no_mangle)]
pub extern "C" fn mf4_write_value(
    record_id_size: u64,
    channel: Mf4Channel,
    value: Mf4Number,
    record: &mut [u8],
) -> Mf4DoneReply
    ensures { returned result «record».new ≡ returned_by done_c (value_written «record».old record_id_size (channel_given channel) (number_given value)) }
{
    encode_channel_value(
        record_id_size as usize,
        channel.into(),
        value.into(),
        record,
    )
    .into()
}
