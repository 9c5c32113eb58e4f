// The words of integers, added up in two words, and the sum of the integers.
ghost use Rattle.std.specs.Prelude.{◌≡◌, ◌*◌, ◌%◌, ◌^◌, ◌<◌, ◌≤◌, pos, ◌+ℤ◌, ◌-ℤ◌};
ghost use Rattle.tally.specs.Words.{signed_zero};
ghost use Rattle.tally.specs.Tallies.{total_of, added_total, excess_of};
ghost use Rattle.tally.specs.Meaning.{sum_meant};

use fields::Number;

// high * 2^64 + low
#[derive(Clone, Copy, Debug, Default, PartialEq, Eq)]
pub struct Total {
    pub high: u64,
    pub low: u64,
}

// high * 2^64 + low, in two's complement of 128 bits
#[derive(Clone, Copy, Debug, Default, PartialEq, Eq)]
pub struct Sum {
    pub high: i64,
    pub low: u64,
}

// What the low word cannot hold is carried.
pub(crate) fn carried(total: Total, word: u64) -> Total
    requires { total.high < 2 ^ 63 }
    ensures { result ≡ added_total total word }
{
    let (low, carry) = total.low.overflowing_add(word);
    Total {
        high: total.high + u64::from(carry),
        low,
    }
}

fn difference(a: u64, b: u64) -> i64
    requires { (a < 2 ^ 63) × (b < 2 ^ 63) }
    ensures { result ≡ pos a -ℤ pos b }
{
    a as i64 - b as i64
}

// 2^63 where the number is odd
fn odd_half(valid: u64) -> u64
    ensures { result ≡ valid % 2 * signed_zero }
{
    (valid % 2) << 63
}

// Each word of a signed integer is 2^63 above it. Two of these make one of the high word, and an odd one is taken from the low
// word, which borrows where it has less.
fn signed_sum(total: Total, valid: u64) -> Sum
    requires { (total.high ≤ valid) × (valid < 2 ^ 63) }
    ensures { sum_meant result +ℤ pos (valid * signed_zero) ≡ pos (total_of total) }
{
    let pairs = valid / 2;
    let (low, borrow) = total.low.overflowing_sub(odd_half(valid));
    Sum {
        high: difference(total.high, pairs + u64::from(borrow)),
        low,
    }
}

pub(crate) fn sum_of(number: Number, total: Total, valid: u64) -> Sum
    requires { (total.high ≤ valid) × (valid < 2 ^ 63) }
    ensures { sum_meant result +ℤ pos (excess_of number valid) ≡ pos (total_of total) }
{
    match number {
        Number::Signed => signed_sum(total, valid),
        _ => Sum {
            high: total.high as i64,
            low: total.low,
        },
    }
}
