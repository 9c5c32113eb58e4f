// The two byte orders.
ghost use Rattle.std.specs.Prelude.{◌≡◌, ◌+◌, ◌*◌, ◌^◌, ◌≤◌, ◌<◌, length};
ghost use Rattle.std.proofs.lemmas.List.Edits.{sets};
ghost use Rattle.definitions.specs.Bytes.{Order, little, big, number_of, le, bytes_of, span};
ghost use Rattle.words.specs.Sides.{lower, upper};

use crate::read::{be_bytes, few_le_bytes, swapped};
use crate::write::{put_few_be, put_few_le};

// An order in which the bytes of a number stand, known when the program is compiled
pub trait ByteOrder {
    ghost order: { Order };

    // Of what stands first and second, the one that weighs less
    fn lower(first: usize, second: usize) -> usize
        ensures { result ≡ lower order first second };

    // And the one that weighs more
    fn upper(first: usize, second: usize) -> usize
        ensures { result ≡ upper order first second };

    // The number of a word's eight bytes, the lowest of them the first
    fn of_word(word: u64) -> u64
        ensures { result ≡ number_of order (le 8 word) };

    // The number of the n bytes of s from `at` on
    fn few_bytes(s: &[u8], at: usize, n: usize) -> u64
        requires { (1 ≤ n) × (n ≤ 8) × (at + n ≤ length s.now) }
        ensures { result ≡ number_of order (span s.now at n) };

    // The n bytes of x, put from `at` on
    fn put_few(out: &mut [u8], at: usize, n: usize, x: u64)
        requires { (1 ≤ n) × (n ≤ 8) × (at + n ≤ length out.old) × (x < 2 ^ (8 * n)) }
        ensures { out.new ≡ sets out.old at (bytes_of order n x) };
}

// The lowest byte first
pub struct Little;

impl ByteOrder for Little {
    ghost order = { little };

    fn lower(first: usize, _second: usize) -> usize {
        first
    }

    fn upper(_first: usize, second: usize) -> usize {
        second
    }

    fn of_word(word: u64) -> u64 {
        word
    }

    fn few_bytes(s: &[u8], at: usize, n: usize) -> u64 {
        few_le_bytes(s, at, n)
    }

    fn put_few(out: &mut [u8], at: usize, n: usize, x: u64) {
        put_few_le(out, at, n, x);
    }
}

// The highest byte first
pub struct Big;

impl ByteOrder for Big {
    ghost order = { big };

    fn lower(_first: usize, second: usize) -> usize {
        second
    }

    fn upper(first: usize, _second: usize) -> usize {
        first
    }

    fn of_word(word: u64) -> u64 {
        swapped(word)
    }

    fn few_bytes(s: &[u8], at: usize, n: usize) -> u64 {
        be_bytes(s, at, n)
    }

    fn put_few(out: &mut [u8], at: usize, n: usize, x: u64) {
        put_few_be(out, at, n, x);
    }
}
