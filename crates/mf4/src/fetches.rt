// Records through a chain of data lists, and values in them.
ghost use Rattle.std.specs.Prelude.{◌≡◌};
ghost use Rattle.definitions.specs.Chain.{data_length, fetched, value_fetched};
ghost use Rattle.block_replies.specs.Replies.{returned, returned_by};
ghost use Rattle.replies.specs.Replies.{done_c};
ghost use Rattle.block_replies.specs.Channels.{channel_given};
ghost use Rattle.replies.specs.Values.{group_given, valid_value_c, length_c};

use block_replies::Mf4Channel;
use chain::{FileAddress, data_length};
use records::{read_record, read_value};
use replies::{Mf4DoneReply, Mf4Group, Mf4LengthReply, Mf4ValidValueReply};

#[unsafe(no_mangle)]
pub extern "C" fn mf4_data_length(file: &[u8], start: u64) -> Mf4LengthReply
    ensures { result ≡ length_c (data_length file.now start) }
{
    data_length(file, FileAddress(start)).into()
}

#[unsafe(no_mangle)]
pub extern "C" fn mf4_read_record(
    file: &[u8],
    start: u64,
    number: u64,
    record_size: u64,
    buffer: &mut [u8],
) -> Mf4DoneReply
    ensures { returned result buffer.new ≡ returned_by done_c (fetched file.now start number record_size buffer.old) }
{
    read_record(file, FileAddress(start), number, record_size, buffer).into()
}

#[unsafe(no_mangle)]
pub extern "C" fn mf4_record_value(
    file: &[u8],
    start: u64,
    number: u64,
    record_size: u64,
    group: Mf4Group,
    channel: Mf4Channel,
    buffer: &mut [u8],
) -> Mf4ValidValueReply
    ensures { returned result buffer.new ≡ returned_by valid_value_c (value_fetched file.now start number record_size (group_given group) (channel_given channel) buffer.old) }
{
    read_value(
        file,
        FileAddress(start),
        number,
        record_size,
        group.into(),
        channel.into(),
        buffer,
    )
    .into()
}
