// A table gives its last fragment up.
ghost use Rattle.std.specs.Prelude.{◌≡◌, ◌≤◌, ◌<◌};
ghost use Rattle.definitions.specs.Table.{table_limit, count_of, without_last, shortened};
ghost use Rattle.table.specs.Meaning.{changed_by};

use crate::layout::{Table, count, position_at};
use crate::soundness::can_be_right;
use refusals::Refusal;

// its place is cleared
#[tactic(auto, unfolding(definitions::specs::Table::without_last))]
fn drop_last(table: &mut Table)
    requires { (0 < count_of table.old) × (count_of table.old ≤ table_limit) }
    ensures { table.new ≡ without_last table.old }
{
    let last = count(table) - 1;
    let end = position_at(table, last);
    table[0] = last;
    table[1] = end.0;
    table[2 + last as usize * 2] = 0;
    table[3 + last as usize * 2] = 0;
}

#[tactic(auto, using(crate::proofs::Ordered::without_file), unfolding(definitions::specs::Table::shortened))]
pub fn shorten_table(table: &mut Table) -> Result<(), Refusal>
    ensures { changed_by result table.new ≡ shortened table.old }
{
    if !can_be_right(table, None) {
        return Err(Refusal::BadTable);
    }
    if count(table) == 0 {
        return Err(Refusal::TableEmpty);
    }
    drop_last(table);
    Ok(())
}
