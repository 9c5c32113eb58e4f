// The four bytes that name a block.
ghost use Rattle.std.specs.Prelude.{◌≡◌, ◌+◌, ◌≤◌, length};
ghost use Rattle.definitions.specs.Bytes.{id_at};

use crate::read::le_bytes;

// Whether the four bytes of s from `at` on are the first four of id: one comparison of two words, where == of slices is a loop
fn same_word(s: &[u8], at: usize, id: &[u8]) -> bool
    requires { (at + 4 ≤ length s.now) × (4 ≤ length id.now) }
    ensures { result ≡ id_at s.now at id.now }
{
    le_bytes(s, at, 4) == le_bytes(id, 0, 4)
}

// Whether they are those of a fixed id
pub fn id_at(s: &[u8], at: usize, id: &[u8; 4]) -> bool
    requires { at + 4 ≤ length s.now }
    ensures { result ≡ id_at s.now at id.now }
{
    same_word(s, at, id)
}
