// Numbers to bytes, in either byte order.
ghost use Rattle.std.specs.Prelude.{◌≡◌, ◌+◌, ◌*◌, ◌^◌, ◌≤◌, ◌<◌, length};
ghost use Rattle.std.proofs.lemmas.List.Edits.{sets};
ghost use Rattle.definitions.specs.Bytes.{big, le, les, bytes_of};

use crate::read::swapped;
use crate::word::write_le;

// The n lowest bytes of x, from `at` on. With a constant n this is one store.
pub fn put_le(out: &mut [u8], at: usize, n: usize, x: u64)
    requires { (n ≤ 8) × (at + n ≤ length out.old) }
    ensures { out.new ≡ sets out.old at (le n x) }
{
    let mut w = x;
    for i in 0..n {
        out[at + i] = (w % 256) as u8;
        w /= 256;
    }
}

// n bytes as two stores of `size` bytes, of which the second ends with them: what both have is stored twice
fn put_overlapping(out: &mut [u8], at: usize, n: usize, size: usize, x: u64)
    requires { (size ≤ 4) × (size ≤ n) × (n ≤ 2 * size) × (at + n ≤ length out.old) }
    ensures { out.new ≡ sets out.old at (le n x) }
{
    put_le(out, at, size, x);
    put_le(out, at + (n - size), size, x >> (8 * (n - size)));
}

// The same as put_le where n is known only when it runs, with no loop then
pub fn put_few_le(out: &mut [u8], at: usize, n: usize, x: u64)
    requires { (1 ≤ n) × (n ≤ 8) × (at + n ≤ length out.old) }
    ensures { out.new ≡ sets out.old at (le n x) }
{
    if 4 <= n {
        put_overlapping(out, at, n, 4, x);
        return;
    }
    if 2 <= n {
        put_overlapping(out, at, n, 2, x);
        return;
    }
    put_le(out, at, 1, x);
}

// The n bytes of x with the highest first: at the top of a word they are the lower ones of the swapped word
pub fn put_few_be(out: &mut [u8], at: usize, n: usize, x: u64)
    requires { (1 ≤ n) × (n ≤ 8) × (at + n ≤ length out.old) × (x < 2 ^ (8 * n)) }
    ensures { out.new ≡ sets out.old at (bytes_of big n x) }
{
    put_few_le(out, at, n, swapped(x << (64 - 8 * n)));
}

// Eight bytes for each of the numbers, from `at` on
pub fn put_all_le(out: &mut [u8], at: usize, numbers: &[u64])
    requires { at + length numbers.now * 8 ≤ length out.old }
    ensures { out.new ≡ sets out.old at (les numbers.now) }
{
    for (i, number) in numbers.iter().enumerate() {
        write_le(out, at + i * 8, *number);
    }
}
