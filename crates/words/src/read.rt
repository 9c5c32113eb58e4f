// Numbers from bytes, in either byte order.
ghost use Rattle.std.specs.Prelude.{◌≡◌, ◌+◌, ◌*◌, ◌^◌, ◌≤◌, ◌<◌, length};
ghost use Rattle.definitions.specs.Bytes.{little, big, number_of, le, span, u64s_at};

use crate::word::read_le;

// The number x of i bytes with the byte b above it
fn with_byte_above(x: u64, i: usize, b: u8) -> u64
    requires { (i < 8) × (x < 2 ^ (8 * i)) }
    ensures { result ≡ b * 2 ^ (8 * i) + x }
{
    (b as u64) << (8 * i) | x
}

// The n bytes of s from `at` on, the first the lowest. With a constant n this is one load.
pub fn le_bytes(s: &[u8], at: usize, n: usize) -> u64
    requires { (n ≤ 8) × (at + n ≤ length s.now) }
    ensures { (result ≡ number_of little (span s.now at n)) × (result < 2 ^ (8 * n)) }
{
    let mut w: u64 = 0;
    for i in 0..n {
        w = with_byte_above(w, i, s[at + i]);
    }
    w
}

// n bytes as two loads of `size` bytes, of which the second ends with them: what both have is shifted out of it
fn overlapping(s: &[u8], at: usize, n: usize, size: usize) -> u64
    requires { (size ≤ 4) × (size ≤ n) × (n ≤ 2 * size) × (at + n ≤ length s.now) }
    ensures { result ≡ number_of little (span s.now at n) }
{
    let second = le_bytes(s, at + (n - size), size) >> (8 * (2 * size - n));
    second << (8 * size) | le_bytes(s, at, size)
}

// The same as le_bytes where n is known only when it runs, with no loop then
pub fn few_le_bytes(s: &[u8], at: usize, n: usize) -> u64
    requires { (1 ≤ n) × (n ≤ 8) × (at + n ≤ length s.now) }
    ensures { result ≡ number_of little (span s.now at n) }
{
    if 4 <= n {
        return overlapping(s, at, n, 4);
    }
    if 2 <= n {
        return overlapping(s, at, n, 2);
    }
    le_bytes(s, at, 1)
}

// The bytes of a word in the other order. The compiler makes one instruction of it.
pub fn swapped(word: u64) -> u64
    ensures { result ≡ number_of big (le 8 word) }
{
    word.swap_bytes()
}

// The n bytes of s from `at` on, the first the highest: in a swapped word they are the upper ones
pub fn be_bytes(s: &[u8], at: usize, n: usize) -> u64
    requires { (1 ≤ n) × (n ≤ 8) × (at + n ≤ length s.now) }
    ensures { result ≡ number_of big (span s.now at n) }
{
    swapped(few_le_bytes(s, at, n)) >> (64 - 8 * n)
}

// As many numbers of eight bytes, from `at` on, as `numbers` has places
pub fn read_all_le(s: &[u8], at: usize, numbers: &mut [u64])
    requires { at + length numbers.old * 8 ≤ length s.now }
    ensures { numbers.new ≡ u64s_at s.now at (length numbers.old) }
{
    for (i, number) in numbers.iter_mut().enumerate() {
        *number = read_le(s, at + i * 8);
    }
}
