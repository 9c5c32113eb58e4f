// The bits of one byte that belong to a field. They are a run, so two runs are compared and no masks are made.
ghost use Rattle.std.specs.Prelude.{◌≡◌, ◌^◌, ◌<◌};
ghost use Rattle.overlaps.specs.Meaning.{InSpan, Covers, field_meant, bits_of_byte, meets};

use crate::place::{FieldPlace, byte_count};

// The bits from `from` on, below `to`
#[derive(Clone, Copy)]
pub struct Run {
    pub from: u64,
    pub to: u64,
}

// Those of byte m of a number, where the field has the bits from `low` on, below `high`
fn bits_of_byte(low: u64, high: u64, m: u64) -> Run
    requires { m < 2 ^ 30 }
    ensures { result ≡ bits_of_byte low high m }
{
    let before = 8 * m;
    Run {
        from: low.saturating_sub(before),
        to: high.saturating_sub(before).min(8),
    }
}

// Those of a record byte that the field reaches into
pub(crate) fn run_in(field: FieldPlace, byte: u64) -> Run
    requires { InSpan (field_meant field) byte }
    ensures { Covers (field_meant field) byte result }
{
    let low = field.bit_offset as u64;
    let high = low + field.bit_count as u64;
    let i = byte - field.byte_offset as u64;
    let mirrored = byte_count(field) - 1 - i;
    if field.big_endian {
        return bits_of_byte(low, high, mirrored);
    }
    bits_of_byte(low, high, i)
}

pub(crate) fn meet(x: Run, y: Run) -> bool
    ensures { result ≡ meets x y }
{
    x.from.max(y.from) < x.to.min(y.to)
}
