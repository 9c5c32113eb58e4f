// The unsigned numbers that stand in a file as bytes, the lowest first.
ghost use Rattle.std.specs.Prelude.{◌≡◌, ℕ, ◌+◌, ◌*◌, ◌^◌, ◌≤◌, ◌<◌, length};
ghost use Rattle.std.proofs.lemmas.List.Edits.{sets};
ghost use Rattle.definitions.specs.Bytes.{little, number_of, le, span};
ghost use Rattle.std.proofs.Common.{rules};

use crate::read::le_bytes;
use crate::write::put_le;

// A number of SIZE bytes, and the word that holds it
pub trait Word {
    ghost SIZE: { ℕ };

    const SIZE: usize;

    ghost number: { Self → ℕ };

    // The number of a word that is below 2 ^ (8 * SIZE)
    fn from_word(word: u64) -> Self
        requires { word < 2 ^ (8 * SIZE) }
        ensures { number result ≡ word };

    fn to_word(self) -> u64
        ensures { result ≡ number self };

    // as many as a word of 64 bits has at most
    ghost few: { SIZE ≤ 8 };
}

impl Word for u16 {
    ghost SIZE = { 2 };

    const SIZE: usize = 2;

    ghost number = { λ x. x };

    fn from_word(word: u64) -> u16 {
        word as u16
    }

    fn to_word(self) -> u64 {
        self as u64
    }

    ghost few = { Prim.search rules };
}

impl Word for u32 {
    ghost SIZE = { 4 };

    const SIZE: usize = 4;

    ghost number = { λ x. x };

    fn from_word(word: u64) -> u32 {
        word as u32
    }

    fn to_word(self) -> u64 {
        self as u64
    }

    ghost few = { Prim.search rules };
}

impl Word for u64 {
    ghost SIZE = { 8 };

    const SIZE: usize = 8;

    ghost number = { λ x. x };

    fn from_word(word: u64) -> u64 {
        word
    }

    fn to_word(self) -> u64 {
        self
    }

    ghost few = { Prim.search rules };
}

// The number at `at`, its first byte the lowest: one load
pub fn read_le<W: Word>(s: &[u8], at: usize) -> W
    requires { at + W.SIZE ≤ length s.now }
    ensures { W.number result ≡ number_of little (span s.now at W.SIZE) }
{
    W::from_word(le_bytes(s, at, W::SIZE))
}

// The number put at `at`, its lowest byte first: one store
pub fn write_le<W: Word>(out: &mut [u8], at: usize, x: W)
    requires { at + W.SIZE ≤ length out.old }
    ensures { out.new ≡ sets out.old at (le W.SIZE (W.number x)) }
{
    put_le(out, at, W::SIZE, x.to_word());
}
