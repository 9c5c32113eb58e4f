// Numbers as words, which are put in order without a rounding. An integer is the word that counts it from the least one of 64
// bits; a float is the pattern of its double.
ghost use Rattle.std.specs.Prelude.{◌≡◌, true, false, is_nan, nat_lt};
ghost use Rattle.std.specs.Float.Ieee.{lt};
ghost use Rattle.tally.specs.Words.{integer_kind, pattern_of, value_at, Exact};

use doubles::{double_of, double_of_sign, value_of};
use fields::Number;

// 0 as a signed integer of 64 bits, counted from the least one
const SIGNED_ZERO: u64 = 0x8000_0000_0000_0000;
// A double holds every integer up to 2^53.
const MOST_EXACT: u64 = 1 << 53;

// The double of a signed integer
fn signed_pattern(word: u64) -> u64
    ensures { result ≡ pattern_of Number.Signed word }
{
    if word < SIGNED_ZERO {
        return double_of_sign(true, SIGNED_ZERO - word);
    }
    double_of(word - SIGNED_ZERO)
}

pub(crate) fn value_at(number: Number, word: u64) -> f64
    ensures { result ≡ value_at number word }
{
    match number {
        Number::Unsigned => value_of(double_of(word)),
        Number::Signed => value_of(signed_pattern(word)),
        Number::Float => value_of(word),
    }
}

// No integer's double is NaN.
pub(crate) fn is_nan(number: Number, word: u64) -> bool
    ensures { result ≡ is_nan (value_at number word) }
{
    match number {
        Number::Float => value_of(word).is_nan(),
        _ => false,
    }
}

fn is_double_below(number: Number, a: u64, b: u64) -> bool
    ensures { result ≡ lt (value_at number a) (value_at number b) }
{
    value_at(number, a) < value_at(number, b)
}

pub(crate) fn is_double_between(smallest: f64, value: f64, largest: f64) -> bool
    ensures { result ≡ true → (is_nan value ≡ false) × (lt value smallest ≡ false) × (lt largest value ≡ false) }
{
    !value.is_nan() && !(value < smallest) && !(largest < value)
}

// Whether two integers of which a is the smaller are both 2^53 at most away from 0: a double holds each of them.
fn is_exact(signed: bool, a: u64, b: u64) -> bool
    ensures { result ≡ true → Exact signed a b }
{
    if signed {
        SIGNED_ZERO - MOST_EXACT <= a && b <= SIGNED_ZERO + MOST_EXACT
    } else {
        b <= MOST_EXACT
    }
}

// Whether two integers are in the order of their doubles: so where a is not the smaller one, and where both are exact
pub(crate) fn is_told(signed: bool, a: u64, b: u64) -> bool
    ensures { result ≡ true → lt (value_at (integer_kind signed) a) (value_at (integer_kind signed) b) ≡ nat_lt a b }
{
    b <= a || is_exact(signed, a, b)
}

// Whether the double of a is the smaller one. A smaller integer's is never larger, so most integers need no rounding.
pub(crate) fn is_below(number: Number, a: u64, b: u64) -> bool
    ensures { result ≡ lt (value_at number a) (value_at number b) }
{
    match number {
        Number::Float => value_of(a) < value_of(b),
        _ => a < b && is_double_below(number, a, b),
    }
}
