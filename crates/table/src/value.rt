// A channel's value in a record that is found by a table.
ghost use Rattle.std.specs.Prelude.{◌≡◌};
ghost use Rattle.definitions.specs.Table.{table_value_fetched};
ghost use Rattle.fields.specs.Meaning.{channel_meant, group_meant};
ghost use Rattle.records.specs.Meaning.{value_fetched_by};

use crate::fetch::fetch_record;
use crate::layout::Table;
use decoder::{Channel, DecodedChannelValue, Group, any_bounded_value};
use refusals::Refusal;

// A field that is refused leaves the record in the buffer. What is asked for stands apart, as C gives it.
pub fn fetch_value(
    file: &[u8],
    table: &Table,
    number: u64,
    record_size: u64,
    group: Group,
    channel: Channel,
    buffer: &mut [u8],
) -> Result<DecodedChannelValue, Refusal>
    ensures { value_fetched_by result buffer.new ≡ table_value_fetched file.now table.now number record_size (group_meant group) (channel_meant channel) buffer.old }
{
    fetch_record(file, table, number, record_size, buffer)?;
    any_bounded_value(&buffer[..record_size as usize], group, channel)
}
