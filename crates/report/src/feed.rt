// The data of a fragment behind the bytes of a record that is not whole yet.
ghost use Rattle.std.specs.Prelude.{◌≡◌, ◌++◌, ◌+◌, ◌<◌, length, take};
ghost use Rattle.tally.specs.Tallies.{Sane};
ghost use Rattle.report.specs.Visits.{Held, visited, few_records};

use crate::layout::Layout;
use crate::run::run;
use records::copy_over;
use tally::Tally;

// A tally, and how many bytes of a record that is not whole yet stand in the buffer
#[derive(Clone, Copy)]
pub(crate) struct Fed {
    pub tally: Tally,
    pub fill: usize,
}

// A part that begins with a record: its whole records in their place, and what is left into the buffer
fn feed_whole(part: &[u8], layout: Layout, before: Tally, buffer: &mut [u8]) -> Fed
    requires { Sane before × (before.records + length part.now < few_records) × (length buffer.old ≡ layout.size) }
    ensures { Held (visited layout.slot) layout.size before part.now buffer.new result.tally result.fill × Sane result.tally }
{
    let n = part.len() / layout.size;
    let end = n * layout.size;
    let tally = run(part, n, layout, before);
    copy_over(&part[end..], buffer, 0);
    Fed {
        tally,
        fill: part.len() - end,
    }
}

// A part behind `fill` bytes that wait in the buffer
pub(crate) fn feed(
    part: &[u8],
    layout: Layout,
    before: Tally,
    buffer: &mut [u8],
    fill: usize,
) -> Fed
    requires { Sane before × (before.records + 1 + length part.now < few_records) × (length buffer.old ≡ layout.size) × (fill < layout.size) }
    ensures { Held (visited layout.slot) layout.size before (take fill buffer.old ++ part.now) buffer.new result.tally result.fill × Sane result.tally }
{
    if fill == 0 {
        return feed_whole(part, layout, before, buffer);
    }
    copy_over(part, buffer, fill);
    let missing = layout.size - fill;
    if part.len() < missing {
        return Fed {
            tally: before,
            fill: fill + part.len(),
        };
    }
    let tally = run(buffer, 1, layout, before);
    feed_whole(&part[missing..], layout, tally, buffer)
}
