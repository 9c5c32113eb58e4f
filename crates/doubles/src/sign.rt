// The doubles of integers of both signs.
ghost use Rattle.std.specs.Prelude.{◌≡◌, cond, ◌+◌, ◌-◌, ◌^◌, ◌≤◌, ◌<◌, pos, negsuc, nat_abs, T};
ghost use Rattle.std.specs.Int.Signed.{lt_z};
ghost use Rattle.definitions.specs.Ieee754.{double_of, double_of_sign};

use crate::round::double_of;

// A pattern of WIDTH bits whose highest, the sign, is clear, with a sign.
pub(crate) fn with_sign<const WIDTH: u32>(negative: bool, pattern: u64) -> u64
    requires { (1 ≤ WIDTH) × (WIDTH ≤ 64) × (pattern < 2 ^ (WIDTH - 1)) }
    ensures { (result ≡ cond negative (2 ^ (WIDTH - 1)) 0 + pattern) × (result < 2 ^ WIDTH) }
{
    if negative {
        (1 << (WIDTH - 1)) + pattern
    } else {
        pattern
    }
}

// The pattern of the double nearest to the integer of a sign and a magnitude; a negative 0 gives -0.
pub fn double_of_sign(negative: bool, magnitude: u64) -> u64
    ensures { result ≡ double_of_sign negative magnitude }
{
    with_sign::<64>(negative, double_of(magnitude))
}

// How far a negative n is from -1. That is an i64 for every n, and how far it is from 0 is not: of -2^63 it is 2^63.
pub fn magnitude_less_one(n: i64) -> u64
    requires { T (lt_z n (pos 0)) }
    ensures { (n ≡ negsuc result) × (result < 2 ^ 63) }
{
    (-1 - n) as u64
}

// The pattern of the double nearest to n. Sign and magnitude are taken first, so that one rounding serves both signs.
pub fn double_of_signed(n: i64) -> u64
    ensures { result ≡ double_of n }
{
    double_of_sign(n < 0, n.unsigned_abs())
}
