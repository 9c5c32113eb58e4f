// Whether two fields share a bit of the record.
ghost use Rattle.std.specs.Prelude.{◌≡◌};
ghost use Rattle.definitions.specs.Overlap.{share_a_bit};
ghost use Rattle.fields.specs.Meaning.{channel_meant};
ghost use Rattle.overlaps.specs.Meaning.{field_meant};

use crate::place::{FieldPlace, byte_end, field_place};
use crate::run::{meet, run_in};
use fields::Channel;

// Byte after byte where both are: a big-endian field with an offset is no single run of the record's bits.
fn fields_share_a_bit(x: FieldPlace, y: FieldPlace) -> bool
    ensures { result ≡ share_a_bit (field_meant x) (field_meant y) }
{
    let start = x.byte_offset.max(y.byte_offset) as u64;
    let end = byte_end(x).min(byte_end(y));
    for byte in start..end {
        if meet(run_in(x, byte), run_in(y, byte)) {
            return true;
        }
    }
    false
}

pub(crate) fn share_a_bit(a: Channel, b: Channel) -> bool
    ensures { result ≡ share_a_bit (channel_meant a) (channel_meant b) }
{
    fields_share_a_bit(field_place(a), field_place(b))
}
