// 32-bit floats as doubles: a double holds the value of every one.
ghost use Rattle.std.specs.Prelude.{◌≡◌, ◌<◌};
ghost use Rattle.definitions.specs.Ieee754.{widened};

use crate::patterns::{
    ALL_BUT_SIGN_32, FRACTION_BITS, INFINITY, INFINITY_32, LEAST_NORMAL_32, MORE_BIAS,
    MORE_FRACTION_BITS, NAN, SIGN_32, UNIT_PLACES_32,
};
use crate::round::double_of;
use crate::sign::with_sign;

// The exponent of one unit, in the field of a double
const SUBNORMAL_EXPONENT: u64 = UNIT_PLACES_32 << FRACTION_BITS;

// The number of units as a double, whose exponent is lowered to theirs. Only 0 has none to lower.
fn widen_subnormal(magnitude: u32) -> u64
    requires { magnitude < 0x0080_0000 }
    ensures { result ≡ widened magnitude }
{
    if magnitude == 0 {
        return 0;
    }
    double_of(magnitude as u64) - SUBNORMAL_EXPONENT
}

// Of a normal number the fraction moves up, and the exponent with it, which then counts from another bias.
fn widen_number(magnitude: u32) -> u64
    requires { magnitude < 0x7f80_0000 }
    ensures { result ≡ widened magnitude }
{
    if magnitude < LEAST_NORMAL_32 {
        return widen_subnormal(magnitude);
    }
    ((magnitude as u64) << MORE_FRACTION_BITS) + MORE_BIAS
}

// The pattern of the double with the value of a 32-bit pattern; any NaN becomes one NaN, its sign clear.
pub fn widen(bits: u32) -> u64
    ensures { result ≡ widened bits }
{
    let magnitude = bits & ALL_BUT_SIGN_32;
    let negative = bits >= SIGN_32;
    if magnitude < INFINITY_32 {
        return with_sign::<64>(negative, widen_number(magnitude));
    }
    if magnitude == INFINITY_32 {
        return with_sign::<64>(negative, INFINITY);
    }
    NAN
}
