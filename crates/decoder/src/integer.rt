// The doubles of integers.
ghost use Rattle.std.specs.Prelude.{◌≡◌, true, false, T};
ghost use Rattle.std.specs.Float.{binary64};
ghost use Rattle.std.specs.Float.Ieee.{in_float};
ghost use Rattle.definitions.specs.Ieee754.{double_of};
ghost use Rattle.fields.specs.Known.{Fitting};
ghost use Rattle.decoder.specs.Meaning.{number_double};

use bit_fields::signed_of;
use doubles::{double_of, double_of_signed};
use fields::Number;

// A double holds every whole number up to 2^53, so the machine's own cast loses nothing.
fn exact_double(n: i64) -> u64
    requires { T (in_float binary64 n) }
    ensures { result ≡ double_of n }
{
    f64::to_bits(n as f64)
}

// One for each sign: a trait of how a field is read and rounded would be longer than the two.
pub(crate) fn unsigned_double(bit_count: u32, x: u64) -> u64
    requires { Fitting Number.Unsigned bit_count x }
    ensures { result ≡ number_double Number.Unsigned bit_count x }
{
    if bit_count <= 53 {
        return exact_double(x as i64);
    }
    double_of(x)
}

pub(crate) fn signed_double(bit_count: u32, x: u64) -> u64
    requires { Fitting Number.Signed bit_count x }
    ensures { result ≡ number_double Number.Signed bit_count x }
{
    let n = signed_of(x, bit_count);
    if bit_count <= 53 {
        return exact_double(n);
    }
    double_of_signed(n)
}
