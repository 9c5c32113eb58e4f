// Records that stand end to end, and the number in one of them.
ghost use Rattle.std.specs.Prelude.{◌≡◌, ◌+◌, ◌*◌, ◌≤◌, ◌<◌, length};
ghost use Rattle.slots.specs.Slots.{slot_word, Within, ShiftTold};

use crate::kind::Kind;
use crate::slot::Slot;
use crate::word::near_field;
use words::read_le;

// Where record i of n begins
pub fn record_begin(i: usize, size: usize, n: usize, length: usize) -> usize
    requires { (i < n) × (n * size ≤ length) }
    ensures { (result ≡ i * size) × (result + size ≤ length) }
{
    i * size
}

// The word of a number in a record, by a load of the eight bytes that hold it
pub fn word_at<K: Kind>(record: &[u8], at: usize, shift: u32, slot: Slot) -> u64
    requires { Within (length «record».now) slot × ShiftTold (length «record».now) slot at shift × (K.number ≡ slot.number) × K.has slot.count }
    ensures { result ≡ slot_word slot «record».now }
{
    let count = K::width(slot.count);
    let word = read_le::<u64>(record, at);
    let x = near_field(word, shift, slot.big_endian, count);
    K::word_of(count, x)
}
