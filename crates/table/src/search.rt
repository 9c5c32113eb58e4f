// Which fragment holds a position.
ghost use Rattle.std.specs.Prelude.{◌≡◌, true, ◌≤◌, ◌<◌};
ghost use Rattle.definitions.specs.Table.{count_of, position_at, ordered};
ghost use Rattle.table.specs.Holds.{Holds};

use crate::layout::{Table, count, places};
use chain::DataPosition;

// The last fragment that begins no later than a position
pub(crate) fn fragment_with(table: &Table, wanted: DataPosition) -> u64
    requires { (ordered table.now ≡ true) × (0 < count_of table.now) × (position_at table.now 0 ≤ wanted.0) }
    ensures { Holds table.now wanted.0 result }
{
    let listed = &places(table)[..count(table) as usize];
    let begun = listed.partition_point(|place| place[1] <= wanted.0);
    begun as u64 - 1
}
