// A payload in the joined data of its chain, fetched into a lent buffer.
ghost use Rattle.std.specs.Prelude.{◌≡◌, ◌+◌, ◌≤◌, length};
ghost use Rattle.definitions.specs.Chain.{file_limit};
ghost use Rattle.definitions.specs.Payload.{id_sd, joined_of, payload_of, stored};
ghost use Rattle.chain.specs.Walk.{Walked};
ghost use Rattle.fields.specs.Meaning.{channel_meant};
ghost use Rattle.payloads.specs.Meaning.{Stores};
ghost use Rattle.payloads.specs.Found.{payload_from, HasLength, Finds};

use crate::position::position_in;
use chain::{DataBlock, DataPosition, FileAddress, Place, locate_data};
use decoder::Channel;
use records::window;
use refusals::Refusal;
use words::read_le;

// The length of a payload, and where the walk stopped that read it: the payload is read on from there
#[derive(Clone, Copy, Debug, PartialEq, Eq)]
pub(crate) struct LengthRead {
    pub length: u32,
    pub reached: Place,
}

// Where a payload lies: a place on the way that is not behind it, its first byte, and how many bytes it has
#[derive(Clone, Copy, Debug, PartialEq, Eq)]
pub(crate) struct PayloadFound {
    pub place: Place,
    pub first: DataPosition,
    pub length: u32,
}

// The four bytes of length at a position inside the joined data. They may stand in as many fragments.
fn length_at(file: &[u8], begin: Place, position: DataPosition) -> LengthRead
    requires { (Walked id_sd file.now begin) × (begin.position.0 ≤ position.0) }
    ensures { (w : Walked id_sd file.now begin) → HasLength file.now w.blocks position.0 result }
{
    let mut bytes = [0u8; 4];
    let reached = window(file, begin, &DataBlock::SIGNAL_ID, position, &mut bytes);
    LengthRead {
        length: read_le(&bytes, 0),
        reached,
    }
}

// The payload at a position of the joined data: its length and all its bytes lie inside. The record was found in the same file,
// so that is not too long.
pub(crate) fn find_payload(
    file: &[u8],
    start: FileAddress,
    position: DataPosition,
) -> Result<PayloadFound, Refusal>
    requires { length file.now ≤ file_limit }
    ensures { Finds file.now (payload_from file.now start.0 position.0) result }
{
    let located = locate_data(file, start, &DataBlock::SIGNAL_ID, position)?;
    let total = located.total;
    if !total.is_behind(position, 4) {
        return Err(Refusal::PayloadOutside);
    }
    let read = length_at(file, located.place, position);
    let first = position.further(4);
    if !total.is_behind(first, read.length as u64) {
        return Err(Refusal::PayloadOutside);
    }
    Ok(PayloadFound {
        place: read.reached,
        first,
        length: read.length,
    })
}

// The payload that the record tells, into the front of the buffer, and how many bytes it has. Nothing is written before it is
// known to fit.
pub(crate) fn store_payload(
    file: &[u8],
    record: &[u8],
    record_id_size: usize,
    channel: Channel,
    buffer: &mut [u8],
) -> Result<usize, Refusal>
    requires { length file.now ≤ file_limit }
    ensures { Stores (stored (payload_of (joined_of id_sd file.now channel.data) «record».now record_id_size (channel_meant channel)) buffer.old) result buffer.new }
{
    let position = position_in(record, record_id_size, channel)?;
    let found = find_payload(file, FileAddress(channel.data), position)?;
    let size = found.length as usize;
    if buffer.len() < size {
        return Err(Refusal::NoRoom(size as u64));
    }
    window(
        file,
        found.place,
        &DataBlock::SIGNAL_ID,
        found.first,
        &mut buffer[..size],
    );
    Ok(size)
}
