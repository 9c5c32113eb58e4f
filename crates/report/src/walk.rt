// All records of the joined data of a chain that is accepted.
ghost use Rattle.std.specs.Prelude.{◌≡◌, ◌/◌, ◌<◌, length};
ghost use Rattle.definitions.specs.Chain.{id_dt, joined};
ghost use Rattle.chain.specs.Walk.{Walked};
ghost use Rattle.tally.specs.Tallies.{Sane, empty_tally};
ghost use Rattle.report.specs.Visits.{seen, visited, few_records};

use crate::feed::feed;
use crate::layout::Layout;
use chain::{DataBlock, Place, Step, data_of, next_step};
use tally::{Tally, empty_tally};

// The buffer, of one record, takes those that are cut. An accepted chain refuses nothing on the way, so each step may be
// unwrapped.
pub(crate) fn tally_records(file: &[u8], begin: Place, layout: Layout, buffer: &mut [u8]) -> Tally
    requires { Walked id_dt file.now begin × (begin.position.0 ≡ 0) × (length buffer.old ≡ layout.size) }
    ensures { ((w : Walked id_dt file.now begin) → result ≡ seen (visited layout.slot) layout.size empty_tally (joined file.now w.blocks) (length (joined file.now w.blocks) / layout.size)) × Sane result × (result.records < few_records) }
{
    let mut place = begin;
    let mut tally = empty_tally();
    let mut fill = 0;
    while let Some(step) = next_step(file, &mut place, &DataBlock::ID).unwrap() {
        if let Step::OverFragment(fragment) = step {
            let data = data_of(file, fragment.block);
            let fed = feed(data, layout, tally, buffer, fill);
            tally = fed.tally;
            fill = fed.fill;
        }
    }
    tally
}
