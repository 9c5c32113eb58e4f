// A run of whole records.
ghost use Rattle.std.specs.Prelude.{◌≡◌, ◌+◌, ◌*◌, ◌≤◌, ◌<◌, length};
ghost use Rattle.tally.specs.Tallies.{Sane};
ghost use Rattle.report.specs.Visits.{seen, visited, few_records};

use crate::in_place::Rows;
use crate::layout::Layout;
use tally::Tally;

// The first n
pub(crate) fn run(records: &[u8], n: usize, layout: Layout, before: Tally) -> Tally
    requires { Sane before × (before.records + n < few_records) × (n * layout.size ≤ length records.now) }
    ensures { (result ≡ seen (visited layout.slot) layout.size before records.now n) × Sane result }
{
    let rows = Rows::new(records, n, layout);
    let mut tally = before;
    let mut i = 0;
    // no `for`, since a row goes over as many records as it can
    while i < n {
        let row = rows.read(i, tally);
        tally = row.tally;
        i = row.next;
        if i < n {
            tally = rows.one(i, tally);
            i += 1;
        }
    }
    tally
}
