// Records through a chain of data lists, and values in them.
ghost use Rattle.std.specs.Prelude.{◌≡◌};
ghost use Rattle.definitions.specs.Chain.{data_length, fetched, value_fetched};
ghost use Rattle.block_replies.specs.Replies.{returned, returned_by};
ghost use Rattle.replies.specs.Replies.{done_c};
ghost use Rattle.block_replies.specs.Channels.{channel_given};
ghost use Rattle.replies.specs.Values.{group_given, valid_value_c, length_c};

use mf4::{Mf4Channel, Mf4DoneReply, Mf4Group, Mf4LengthReply, Mf4ValidValueReply};

#[unsafe(no_mangle)]
pub extern "C" fn mf4_data_length(file: &[u8], start: u64) -> Mf4LengthReply
    ensures { result ≡ length_c (data_length file.now start) }
{
    mf4::mf4_data_length(file, start)
}

#[unsafe(no_mangle)]
pub extern "C" fn mf4_read_record(
    file: &[u8],
    start: u64,
    number: u64,
    record_size: u64,
    buffer: &mut [u8],
) -> Mf4DoneReply
    ensures { returned result buffer.new ≡ returned_by done_c (fetched file.now start number record_size buffer.old) }
{
    mf4::mf4_read_record(file, start, number, record_size, buffer)
}

#[unsafe(no_mangle)]
pub extern "C" fn mf4_record_value(
    file: &[u8],
    start: u64,
    number: u64,
    record_size: u64,
    group: Mf4Group,
    channel: Mf4Channel,
    buffer: &mut [u8],
) -> Mf4ValidValueReply
    ensures { returned result buffer.new ≡ returned_by valid_value_c (value_fetched file.now start number record_size (group_given group) (channel_given channel) buffer.old) }
{
    mf4::mf4_record_value(file, start, number, record_size, group, channel, buffer)
}
