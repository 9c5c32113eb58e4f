// Bit fields of the bytes of a record, replaced in either byte order.
ghost use Rattle.std.specs.Prelude.{◌≡◌, ◌+◌, ◌-◌, ◌/◌, ◌%◌, ◌^◌, ◌≤◌, ◌<◌, length};
ghost use Rattle.definitions.specs.Bytes.{bytes_for, with_bits, field_set};

use crate::read::cut;
use words::ByteOrder;

// The word with x in the place of its bits from offset on, count of them: no mask, so no shift by 64
fn with_bits(word: u64, offset: u32, count: u32, x: u64) -> u64
    requires { (offset < 64) × (1 ≤ count) × (offset + count ≤ 64) × (x < 2 ^ count) }
    ensures { result ≡ with_bits word offset count x }
{
    word - (cut(word, offset, count) << offset) + (x << offset)
}

// Of a field that ends above the word: the word with the field's low bits
fn with_low_bits(word: u64, offset: u32, x: u64) -> u64
    requires { offset < 64 }
    ensures { result ≡ with_bits word offset (64 - offset) (x % 2 ^ (64 - offset)) }
{
    with_bits(word, offset, 64 - offset, cut(x, 0, 64 - offset))
}

// And the byte above the word with the others
fn with_high_bits(byte: u8, offset: u32, count: u32, x: u64) -> u8
    requires { (offset < 8) × (count ≤ 64) × (64 < offset + count) × (x < 2 ^ count) }
    ensures { result ≡ with_bits byte 0 (offset + count - 64) (x / 2 ^ (64 - offset)) }
{
    with_bits(byte as u64, 0, offset + count - 64, x >> (64 - offset)) as u8
}

// A field in nine bytes: the word, and the byte above it
fn put_far<O: ByteOrder>(s: &mut [u8], at: usize, offset: u32, count: u32, x: u64)
    requires { (offset < 8) × (count ≤ 64) × (64 < offset + count) × (at + 9 ≤ length s.old) × (x < 2 ^ count) }
    ensures { s.new ≡ field_set O.order s.old at offset count x }
{
    let low = O::lower(at, at + 1);
    let top = O::upper(at, at + 8);
    let word = with_low_bits(O::few_bytes(s, low, 8), offset, x);
    let byte = with_high_bits(s[top], offset, count, x);
    O::put_few(s, low, 8, word);
    s[top] = byte;
}

// x in the field of count bits from bit offset of the bytes of s from `at` on
pub fn put_field<O: ByteOrder>(s: &mut [u8], at: usize, offset: u32, count: u32, x: u64)
    requires { (offset < 8) × (1 ≤ count) × (count ≤ 64) × (at + bytes_for offset count ≤ length s.old) × (x < 2 ^ count) }
    ensures { s.new ≡ field_set O.order s.old at offset count x }
{
    let n = ((offset + count + 7) / 8) as usize;
    if 8 < n {
        put_far::<O>(s, at, offset, count, x);
        return;
    }
    let word = with_bits(O::few_bytes(s, at, n), offset, count, x);
    O::put_few(s, at, n, word);
}
