// Doubles as 32-bit floats, where one has the same value.
ghost use Rattle.std.specs.Prelude.{◌≡◌, cond, ◌+◌, ◌*◌, ◌^◌, ◌<◌};
ghost use Rattle.definitions.specs.Ieee754.{narrowed, narrows};
ghost use Rattle.definitions.specs.WrittenValue.{fitting};
ghost use Rattle.doubles.specs.Meaning.{narrow_meant, OnlyOne};

use crate::patterns::{
    ALL_BUT_SIGN, BIAS, FRACTION_BITS, INFINITY_32, LEADING, LEAST_NORMAL_32, MORE_BIAS,
    MORE_FRACTION_BITS, NAN, NAN_32, SIGN, UNIT_PLACES_32,
};
use crate::sign::with_sign;
use crate::widening::widen;

// The least normal 32-bit float as a double, and 2^128, which is above every finite one.
const LEAST_NORMAL: u64 = ((LEAST_NORMAL_32 as u64) << MORE_FRACTION_BITS) + MORE_BIAS;

const ABOVE_NORMAL: u64 = ((INFINITY_32 as u64) << MORE_FRACTION_BITS) + MORE_BIAS;
// The exponent's field of one unit, 2^-149
const UNIT_EXPONENT: u64 = BIAS - UNIT_PLACES_32;

// How many whole units there are. A significand with the field of one unit has 52 bits below that.
fn narrow_subnormal(magnitude: u64) -> u32
    requires { magnitude < 897 * 2 ^ 52 }
    ensures { (result < 2 ^ 31) × OnlyOne magnitude result }
{
    let exponent = magnitude / LEADING;
    if exponent < UNIT_EXPONENT {
        return 0;
    }
    let significand = LEADING + magnitude % LEADING;
    (significand >> (UNIT_EXPONENT + FRACTION_BITS as u64 - exponent)) as u32
}

// The only pattern that can widen to one whose sign is clear. It does not where bits are dropped here.
fn narrow_magnitude(magnitude: u64) -> u32
    requires { magnitude < 2 ^ 63 }
    ensures { (result < 2 ^ 31) × OnlyOne magnitude result }
{
    if magnitude < LEAST_NORMAL {
        return narrow_subnormal(magnitude);
    }
    if magnitude < ABOVE_NORMAL {
        return ((magnitude - MORE_BIAS) >> MORE_FRACTION_BITS) as u32;
    }
    INFINITY_32
}

// The 32-bit pattern that widens to a double's; none where the double is wider. Of the NaNs that is so of one, its sign clear.
pub fn narrow(bits: u64) -> Option<u32>
    ensures { narrow_meant result ≡ fitting (narrows bits) (narrowed bits) }
{
    if bits == NAN {
        return Some(NAN_32);
    }
    let magnitude = narrow_magnitude(bits & ALL_BUT_SIGN);
    let single = with_sign::<32>(bits >= SIGN, magnitude as u64) as u32;
    if widen(single) == bits {
        return Some(single);
    }
    None
}
