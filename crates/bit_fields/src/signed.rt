// Two's complement of any width up to 64 bits.
ghost use Rattle.std.specs.Prelude.{◌≡◌, ◌^◌, ◌≤◌, ◌<◌};
ghost use Rattle.definitions.specs.Bytes.{twos_complement};

// What the `width` bits of x stand for: at the top of a word their sign is the word's, and a shift down copies it
pub fn signed_of(x: u64, width: u32) -> i64
    requires { (1 ≤ width) × (width ≤ 64) × (x < 2 ^ width) }
    ensures { result ≡ twos_complement width x }
{
    (x << (64 - width)).cast_signed() >> (64 - width)
}
