// Values and doubles of channels.
ghost use Rattle.std.specs.Prelude.{◌≡◌};
ghost use Rattle.definitions.specs.Channel.{value_of, record_double};
ghost use Rattle.block_replies.specs.Channels.{channel_given};
ghost use Rattle.replies.specs.Values.{value_c};

use block_replies::Mf4Channel;
use decoder::{decode_channel_value, decode_f64_from_record};
use replies::Mf4ValueReply;

#[unsafe(no_mangle)]
pub extern "C" fn mf4_decode_value(
    record: &[u8],
    record_id_size: u64,
    channel: Mf4Channel,
) -> Mf4ValueReply
    ensures { result ≡ value_c (value_of «record».now record_id_size (channel_given channel)) }
{
    decode_channel_value(record, record_id_size as usize, channel.into()).into()
}

#[unsafe(no_mangle)]
pub extern "C" fn mf4_decode_double_bits(
    record: &[u8],
    record_id_size: u64,
    channel: Mf4Channel,
) -> u64
    ensures { result ≡ record_double «record».now record_id_size (channel_given channel) }
{
    decode_f64_from_record(record, record_id_size as usize, channel.into())
}
