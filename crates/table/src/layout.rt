// The words of a table, and one fragment more.
ghost use Rattle.std.specs.Prelude.{◌≡◌, ◌+◌, ◌≤◌, ◌<◌};
ghost use Rattle.definitions.specs.Table.{table_limit, count_of, total_in, address_at, position_at, begin_of, with_block};
ghost use Rattle.places.specs.Meaning.{block_meant};
ghost use Rattle.table.specs.Holds.{Places};

use chain::{DataBlock, DataPosition, FileAddress};

// How many fragments, the length of their data, then an address and a position in each of 512 places. An array, and no struct,
// since C lends it.
pub type Table = [u64; 1026];

// the fragments of a table
pub(crate) const TABLE_LIMIT: u64 = 512;

pub(crate) fn count(table: &Table) -> u64
    ensures { result ≡ count_of table.now }
{
    table[0]
}

pub(crate) fn total(table: &Table) -> DataPosition
    ensures { result.0 ≡ total_in table.now }
{
    DataPosition(table[1])
}

// The places, each an address and a position
pub(crate) fn places(table: &Table) -> &[[u64; 2]]
    ensures { Places table.now result.now }
{
    table[2..].as_chunks::<2>().0
}

// Two readers of a word, since an address and a position are two kinds of number.
pub(crate) fn address_at(table: &Table, place: u64) -> FileAddress
    requires { place < table_limit }
    ensures { result.0 ≡ address_at table.now place }
{
    FileAddress(table[2 + place as usize * 2])
}

pub(crate) fn position_at(table: &Table, place: u64) -> DataPosition
    requires { place < table_limit }
    ensures { result.0 ≡ position_at table.now place }
{
    DataPosition(table[3 + place as usize * 2])
}

// where a fragment's data begins, or behind the last one the end of all data
#[tactic(auto, unfolding(definitions::specs::Table::begin_of))]
pub(crate) fn begin_of(table: &Table, place: u64) -> DataPosition
    requires { count_of table.now ≤ table_limit }
    ensures { result.0 ≡ begin_of table.now place }
{
    if place < count(table) {
        position_at(table, place)
    } else {
        total(table)
    }
}

// a block into the first free place
#[tactic(auto, unfolding(definitions::specs::Table::with_block))]
pub(crate) fn add(table: &mut Table, block: DataBlock)
    requires { (count_of table.old < table_limit) × (total_in table.old + block.size < 18446744073709551616) }
    ensures { table.new ≡ with_block table.old (block_meant block) }
{
    let n = count(table);
    let end = total(table);
    table[0] = n + 1;
    table[1] = end.0 + block.size;
    table[2 + n as usize * 2] = block.address.0;
    table[3 + n as usize * 2] = end.0;
}
