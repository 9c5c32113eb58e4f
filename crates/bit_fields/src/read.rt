// Bit fields of the bytes of a record, in either byte order.
ghost use Rattle.std.specs.Prelude.{◌≡◌, ◌+◌, ◌*◌, ◌/◌, ◌%◌, ◌^◌, ◌≤◌, ◌<◌, length};
ghost use Rattle.definitions.specs.Bytes.{le, bits, bytes_for, field_at};

use words::ByteOrder;

// The bits of a word from offset on, count of them. These stay two numbers, of which each function here allows others.
pub fn cut(word: u64, offset: u32, count: u32) -> u64
    requires { (offset < 64) × (1 ≤ count) × (count ≤ 64) }
    ensures { result ≡ bits word offset count }
{
    ((word >> offset) << (64 - count)) >> (64 - count)
}

// The same of a word with a byte above it. Two shifts of the byte, since a shift by 64 is none.
fn cut_nine(byte: u8, word: u64, offset: u32, count: u32) -> u64
    requires { (offset < 64) × (1 ≤ count) × (count ≤ 64) }
    ensures { result ≡ bits (byte * 2 ^ 64 + word) offset count }
{
    cut(
        word >> offset | ((byte as u64) << 1) << (63 - offset),
        0,
        count,
    )
}

// The count bits from bit `from` on of a word's eight bytes, the lowest byte the first: a field in any of those bytes.
// The bytes that weigh less than the field stand below it.
pub fn near<O: ByteOrder>(word: u64, from: u32, count: u32) -> u64
    requires { (1 ≤ count) × (from + count ≤ 64) }
    ensures { result ≡ field_at O.order (le 8 word) (from / 8) (from % 8) count }
{
    let after = (64 - from - count) / 8;
    let below = O::lower((from / 8) as usize, after as usize) as u32;
    cut(O::of_word(word), below * 8 + from % 8, count)
}

// A field in nine bytes: a word, and the byte above it
fn far<O: ByteOrder>(s: &[u8], at: usize, offset: u32, count: u32) -> u64
    requires { (offset < 8) × (count ≤ 64) × (bytes_for offset count ≡ 9) × (at + 9 ≤ length s.now) }
    ensures { result ≡ field_at O.order s.now at offset count }
{
    let word = O::few_bytes(s, O::lower(at, at + 1), 8);
    cut_nine(s[O::upper(at, at + 8)], word, offset, count)
}

// The field of count bits from bit offset of the bytes of s from `at` on
pub fn field<O: ByteOrder>(s: &[u8], at: usize, offset: u32, count: u32) -> u64
    requires { (offset < 8) × (1 ≤ count) × (count ≤ 64) × (at + bytes_for offset count ≤ length s.now) }
    ensures { result ≡ field_at O.order s.now at offset count }
{
    let n = ((offset + count + 7) / 8) as usize;
    if 8 < n {
        return far::<O>(s, at, offset, count);
    }
    cut(O::few_bytes(s, at, n), offset, count)
}
