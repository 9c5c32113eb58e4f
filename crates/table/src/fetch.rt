// A record of the joined data, found by a table.
ghost use Rattle.std.specs.Prelude.{◌≡◌, true, ◌+◌, ◌≤◌, ◌<◌, length};
ghost use Rattle.definitions.specs.Chain.{joined};
ghost use Rattle.definitions.specs.Table.{total_in, blocks_in, sound, table_fetched};
ghost use Rattle.records.specs.Meaning.{fetched_by};
ghost use Rattle.records.specs.Window.{laid};

use crate::layout::{Table, address_at, begin_of, count, position_at, total};
use crate::search::fragment_with;
use crate::soundness::can_be_right;
use chain::{DataBlock, DataPosition, data_of};
use places::FILE_LIMIT;
use records::{bad_size, ends_behind, lay};
use refusals::Refusal;

// The bytes of the table's data from `from` on, as far as `out` goes. Only the fragments that hold them are read.
fn window(file: &[u8], table: &Table, from: DataPosition, out: &mut [u8])
    requires { (sound file.now table.now ≡ true) × (0 < length out.old) × (from.0 + length out.old ≤ total_in table.now) }
    ensures { out.new ≡ laid out.old from.0 0 (joined file.now (blocks_in table.now)) }
{
    for place in fragment_with(table, from)..count(table) {
        let begin = position_at(table, place);
        let end = begin_of(table, place + 1);
        let data = data_of(
            file,
            DataBlock {
                address: address_at(table, place),
                size: end.0 - begin.0,
            },
        );
        lay(data, begin, from, out);
        if end.is_behind(from, out.len() as u64) {
            return;
        }
    }
}

// The number and the size stand apart, as C gives them.
#[tactic(auto, using(crate::proofs::Ordered::with_file), unfolding(definitions::specs::Table::table_fetched, definitions::specs::Chain::record_of))]
pub fn fetch_record(
    file: &[u8],
    table: &Table,
    number: u64,
    record_size: u64,
    buffer: &mut [u8],
) -> Result<(), Refusal>
    ensures { fetched_by result buffer.new ≡ table_fetched file.now table.now number record_size buffer.old }
{
    if bad_size(record_size, buffer.len() as u64) {
        return Err(Refusal::BadRecordSize);
    }
    if FILE_LIMIT < file.len() {
        return Err(Refusal::FileTooLong);
    }
    if !can_be_right(table, Some(file.len() as u64)) {
        return Err(Refusal::BadTable);
    }
    let end = total(table);
    if ends_behind(end.0, number, record_size) {
        return Err(Refusal::NoSuchRecord);
    }
    let from = DataPosition(number * record_size);
    let size = record_size as usize;
    window(file, table, from, &mut buffer[..size]);
    Ok(())
}
