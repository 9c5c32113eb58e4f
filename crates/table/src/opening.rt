// A table is opened from a chain.
ghost use Rattle.std.specs.Prelude.{◌≡◌, [], ◌+◌, ◌≤◌, ◌<◌, length, replicate};
ghost use Rattle.definitions.specs.Chain.{file_limit};
ghost use Rattle.definitions.specs.Table.{table_limit, table_of, opened};
ghost use Rattle.table.specs.Meaning.{changed_by};
ghost use Rattle.table.specs.Listed.{Lists, added_within, AddsWithin};
ghost use Rattle.places.specs.Meaning.{block_meant};

use crate::layout::{TABLE_LIMIT, Table, add};
use chain::{DataBlock, FileAddress, Place, Step, next_step};
use places::FILE_LIMIT;
use refusals::Refusal;

// fragment `index`, if it is one of the first `most`
fn add_within(table: &mut Table, index: u64, most: u64, block: DataBlock)
    requires { AddsWithin index most table.old (block_meant block) }
    ensures { table.new ≡ added_within index most table.old (block_meant block) }
{
    if index < most {
        add(table, block);
    }
}

// Walks all of a chain, and lists the first `most` of its fragments: none, or as many as an empty table holds. Tells how many
// there are in all.
fn list_chain(file: &[u8], start: FileAddress, most: u64, table: &mut Table) -> Result<u64, Refusal>
    requires { (length file.now ≤ file_limit) × (most ≤ table_limit) × (0 < most → table.old ≡ table_of []) }
    ensures { Lists result file.now start.0 most table.old table.new }
{
    let mut place = Place::start(start);
    while let Some(step) = next_step(file, &mut place, &DataBlock::ID)? {
        if let Step::OverFragment(fragment) = step {
            let before = fragment.before;
            add_within(table, before.fragments + before.index, most, fragment.block);
        }
    }
    Ok(place.fragments + place.index)
}

// A word is stored only where it is not 0: a loop that stores them all would become a call of memset, which is not the library's.
fn clear(words: &mut [u64])
    ensures { words.new ≡ replicate (length words.old) 0 }
{
    for word in words.iter_mut() {
        if *word != 0 {
            *word = 0;
        }
    }
}

// The chain is walked first without a table, so that a refusal leaves the table alone.
#[tactic(auto, unfolding(definitions::specs::Table::opened))]
pub fn open_table(file: &[u8], start: FileAddress, table: &mut Table) -> Result<(), Refusal>
    ensures { changed_by result table.new ≡ opened file.now start.0 table.old }
{
    if FILE_LIMIT < file.len() {
        return Err(Refusal::FileTooLong);
    }
    let fragments = list_chain(file, start, 0, table)?;
    if TABLE_LIMIT < fragments {
        return Err(Refusal::TableFull);
    }
    clear(table);
    list_chain(file, start, TABLE_LIMIT, table)?;
    Ok(())
}
