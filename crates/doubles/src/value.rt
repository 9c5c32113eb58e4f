// The double of a pattern.
ghost use Rattle.std.specs.Prelude.{◌≡◌};
ghost use Rattle.std.specs.Float.{binary64};
ghost use Rattle.std.specs.Float.Ieee.{of_bits};

use crate::patterns::{ALL_BUT_SIGN, INFINITY};

// Every NaN's pattern stands above the infinity's, and gives the one NaN, which 0.0 / 0.0 is.
pub fn value_of(bits: u64) -> f64
    ensures { result ≡ of_bits binary64 bits }
{
    if (bits & ALL_BUT_SIGN) > INFINITY {
        return 0.0 / 0.0;
    }
    f64::from_bits(bits)
}
