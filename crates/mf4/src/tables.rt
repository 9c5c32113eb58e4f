// Tables of fragments, and records through them.
ghost use Rattle.std.specs.Prelude.{◌≡◌};
ghost use Rattle.definitions.specs.Table.{opened, extended, shortened, table_fetched, table_value_fetched};
ghost use Rattle.block_replies.specs.Replies.{returned, returned_by};
ghost use Rattle.replies.specs.Replies.{done_c};
ghost use Rattle.block_replies.specs.Channels.{channel_given};
ghost use Rattle.replies.specs.Values.{group_given, valid_value_c};

use block_replies::Mf4Channel;
use chain::FileAddress;
use replies::{Mf4DoneReply, Mf4Group, Mf4ValidValueReply};
use table::{Table, extend_table, fetch_record, fetch_value, open_table, shorten_table};

#[unsafe(no_mangle)]
pub extern "C" fn mf4_open_table(file: &[u8], start: u64, table: &mut Table) -> Mf4DoneReply
    ensures { returned result table.new ≡ returned_by done_c (opened file.now start table.old) }
{
    open_table(file, FileAddress(start), table).into()
}

#[unsafe(no_mangle)]
pub extern "C" fn mf4_extend_table(file: &[u8], block_addr: u64, table: &mut Table) -> Mf4DoneReply
    ensures { returned result table.new ≡ returned_by done_c (extended file.now block_addr table.old) }
{
    extend_table(file, FileAddress(block_addr), table).into()
}

#[unsafe(no_mangle)]
pub extern "C" fn mf4_shorten_table(table: &mut Table) -> Mf4DoneReply
    ensures { returned result table.new ≡ returned_by done_c (shortened table.old) }
{
    shorten_table(table).into()
}

#[unsafe(no_mangle)]
pub extern "C" fn mf4_table_record(
    file: &[u8],
    table: &Table,
    number: u64,
    record_size: u64,
    buffer: &mut [u8],
) -> Mf4DoneReply
    ensures { returned result buffer.new ≡ returned_by done_c (table_fetched file.now table.now number record_size buffer.old) }
{
    fetch_record(file, table, number, record_size, buffer).into()
}

#[unsafe(no_mangle)]
pub extern "C" fn mf4_table_value(
    file: &[u8],
    table: &Table,
    number: u64,
    record_size: u64,
    group: Mf4Group,
    channel: Mf4Channel,
    buffer: &mut [u8],
) -> Mf4ValidValueReply
    ensures { returned result buffer.new ≡ returned_by valid_value_c (table_value_fetched file.now table.now number record_size (group_given group) (channel_given channel) buffer.old) }
{
    fetch_value(
        file,
        table,
        number,
        record_size,
        group.into(),
        channel.into(),
        buffer,
    )
    .into()
}
