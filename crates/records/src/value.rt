// A channel's value in a record that is fetched.
ghost use Rattle.std.specs.Prelude.{◌≡◌};
ghost use Rattle.definitions.specs.Chain.{value_fetched};
ghost use Rattle.fields.specs.Meaning.{channel_meant, group_meant};
ghost use Rattle.records.specs.Meaning.{value_fetched_by};

use crate::record::read_record;
use chain::FileAddress;
use decoder::{Channel, DecodedChannelValue, Group, any_bounded_value};
use refusals::Refusal;

// The value and the validity, from the record's bytes alone. A field that is refused leaves the record in the buffer.
pub fn read_value(
    file: &[u8],
    start: FileAddress,
    number: u64,
    record_size: u64,
    group: Group,
    channel: Channel,
    buffer: &mut [u8],
) -> Result<DecodedChannelValue, Refusal>
    ensures { value_fetched_by result buffer.new ≡ value_fetched file.now start.0 number record_size (group_meant group) (channel_meant channel) buffer.old }
{
    read_record(file, start, number, record_size, buffer)?;
    let size = record_size as usize;
    any_bounded_value(&buffer[..size], group, channel)
}
