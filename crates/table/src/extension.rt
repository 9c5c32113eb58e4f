// A table takes one more block at its end.
ghost use Rattle.std.specs.Prelude.{◌≡◌};
ghost use Rattle.definitions.specs.Table.{extended};
ghost use Rattle.table.specs.Meaning.{changed_by};

use crate::layout::{TABLE_LIMIT, Table, add, count};
use crate::soundness::can_be_right;
use chain::{DataBlock, FileAddress, data_block_at};
use places::FILE_LIMIT;
use refusals::Refusal;

#[tactic(auto, using(crate::proofs::Ordered::with_file), unfolding(definitions::specs::Table::extended))]
pub fn extend_table(file: &[u8], address: FileAddress, table: &mut Table) -> Result<(), Refusal>
    ensures { changed_by result table.new ≡ extended file.now address.0 table.old }
{
    if FILE_LIMIT < file.len() {
        return Err(Refusal::FileTooLong);
    }
    if !can_be_right(table, Some(file.len() as u64)) {
        return Err(Refusal::BadTable);
    }
    let block = data_block_at(file, address, &DataBlock::ID)?;
    if TABLE_LIMIT <= count(table) {
        return Err(Refusal::TableFull);
    }
    add(table, block);
    Ok(())
}
