// The word of a number in a record, by a load of eight bytes, or by the general way.
ghost use Rattle.std.specs.Prelude.{◌≡◌, ◌+◌, ◌≤◌, ◌<◌, length};
ghost use Rattle.definitions.specs.Bytes.{number_of, le, bits};
ghost use Rattle.fields.specs.Form.{order_meant};
ghost use Rattle.fields.specs.Known.{Fitting};
ghost use Rattle.fields.specs.declared.form.Number.TheVariants.{Signed};
ghost use Rattle.slots.specs.Slots.{word_of, slot_word, shift_in, Within, PlaceTold};
ghost use Rattle.slots.specs.Known.{SignBit};

use crate::slot::Slot;
use bit_fields::cut;
use fields::{Number, float_bits, number_at};
use words::{Big, ByteOrder, Little};

// The first byte of eight of a record that hold the field, and the bit of them at which it begins
#[derive(Clone, Copy, Debug, PartialEq, Eq)]
pub struct WordPlace {
    pub at: usize,
    pub from: u32,
}

// The eight bytes from the field's first on, else the last eight of the record, which then hold the field
pub fn find_place(size: usize, slot: Slot) -> Option<WordPlace>
    requires { Within size slot }
    ensures { PlaceTold size slot result }
{
    if size < 8 {
        return None;
    }
    let last = size - 8;
    if slot.at <= last {
        if 64 < slot.offset + slot.count {
            return None;
        }
        return Some(WordPlace {
            at: slot.at,
            from: slot.offset,
        });
    }
    let over = (slot.at - last) as u32;
    Some(WordPlace {
        at: last,
        from: 8 * over + slot.offset,
    })
}

// The value of the highest of `count` bits
fn sign_bit(count: u32) -> u64
    requires { (1 ≤ count) × (count ≤ 64) }
    ensures { SignBit count result }
{
    1 << (count - 1)
}

// An integer counted from the least one of 64 bits: order is then that of unsigned words
pub(crate) fn signed_word(count: u32, x: u64) -> u64
    requires { Fitting Signed count x }
    ensures { result ≡ word_of Signed count x }
{
    let sign = sign_bit(count);
    if x < sign {
        return x + 9223372036854775808;
    }
    x - sign + (9223372036854775808 - sign)
}

fn word_of(number: Number, count: u32, x: u64) -> u64
    requires { Fitting number count x }
    ensures { result ≡ word_of number count x }
{
    match number {
        Number::Unsigned => x,
        Number::Signed => signed_word(count, x),
        Number::Float => float_bits(count, x),
    }
}

// How far below the field the eight bytes of `find_place` are read
pub fn shift_of(from: u32, slot: Slot) -> u32
    requires { from + slot.count ≤ 64 }
    ensures { result ≡ shift_in slot.big_endian from slot.count }
{
    if slot.big_endian {
        return (64 - from - slot.count) / 8 * 8 + from % 8;
    }
    from
}

// The field in such eight bytes
pub(crate) fn near_field(word: u64, shift: u32, big_endian: bool, count: u32) -> u64
    requires { (shift < 64) × (1 ≤ count) × (count ≤ 64) }
    ensures { result ≡ bits (number_of (order_meant big_endian) (le 8 word)) shift count }
{
    if big_endian {
        cut(Big::of_word(word), shift, count)
    } else {
        cut(Little::of_word(word), shift, count)
    }
}

// The word of the number in a record, by the general way: it need not have eight bytes, nor need eight hold the field
pub fn far_word(record: &[u8], slot: Slot) -> u64
    requires { Within (length «record».now) slot }
    ensures { result ≡ slot_word slot «record».now }
{
    let number = slot.number;
    let x = number_at(record, slot.at, slot.big_endian, slot.offset, slot.count);
    word_of(number, slot.count, x)
}
