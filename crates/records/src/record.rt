// A record of the joined data, fetched into a lent buffer.
ghost use Rattle.std.specs.Prelude.{◌≡◌, ◌+◌, ◌*◌, ◌≤◌, ◌<◌, ltb};
ghost use Rattle.definitions.specs.Chain.{bad_size, fetched};
ghost use Rattle.records.specs.Meaning.{fetched_by};

use crate::joined::window;
use chain::{DataBlock, DataPosition, FileAddress, locate_data};
use refusals::Refusal;

// the bytes of a record
const RECORD_LIMIT: u64 = 16384;

// Whether records of that size are none, or too long for the buffer's room
pub fn bad_size(size: u64, room: u64) -> bool
    ensures { result ≡ bad_size size room }
{
    size == 0 || RECORD_LIMIT < size || room < size
}

// Whether a record ends behind the data. One division, since the product could wrap.
pub fn ends_behind(total: u64, number: u64, size: u64) -> bool
    requires { 0 < size }
    ensures { result ≡ ltb total (number * size + size) }
{
    total / size <= number
}

// The position of a record's first byte. One that no word can count is behind all data, as the last that a word can.
fn first_byte(number: u64, size: u64) -> DataPosition
    ensures { number * size ≤ 18446744073709551615 → result.0 ≡ number * size }
{
    DataPosition(number.saturating_mul(size))
}

// Record `number` of the joined data, in the front of the buffer. The chain is accepted first, so that a refusal leaves the buffer alone.
pub fn read_record(
    file: &[u8],
    start: FileAddress,
    number: u64,
    record_size: u64,
    buffer: &mut [u8],
) -> Result<(), Refusal>
    ensures { fetched_by result buffer.new ≡ fetched file.now start.0 number record_size buffer.old }
{
    if bad_size(record_size, buffer.len() as u64) {
        return Err(Refusal::BadRecordSize);
    }
    let from = first_byte(number, record_size);
    let located = locate_data(file, start, &DataBlock::ID, from)?;
    if ends_behind(located.total.0, number, record_size) {
        return Err(Refusal::NoSuchRecord);
    }
    let size = record_size as usize;
    window(
        file,
        located.place,
        &DataBlock::ID,
        from,
        &mut buffer[..size],
    );
    Ok(())
}
