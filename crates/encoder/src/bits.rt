// The bits that stand for a number in a field.
ghost use Rattle.std.specs.Prelude.{◌≡◌, ◌-◌, ◌^◌, ◌≤◌, ◌<◌, suc, negsuc, ltb};
ghost use Rattle.definitions.specs.WrittenValue.{given_double, fitting, complement_of, float_field};
ghost use Rattle.encoder.specs.Meaning.{given_meant, bits_reply, number_field};

use crate::number::NumberGiven;
use doubles::{magnitude_less_one, narrow};
use fields::Number;
use refusals::Refusal;

// How many bits a field has
#[derive(Clone, Copy, Debug, PartialEq, Eq)]
pub(crate) struct Width {
    pub count: u32,
    ghost in_word: { (1 ≤ count) × (count ≤ 64) },
}

fn if_fits(fits: bool, bits: u64) -> Result<u64, Refusal>
    ensures { bits_reply result ≡ fitting fits bits }
{
    if fits {
        Ok(bits)
    } else {
        Err(Refusal::DoesNotFit)
    }
}

impl Width {
    // Whether it has more digits than n takes
    fn has_more_than(self, n: u64) -> bool
        ensures { result ≡ ltb n (2 ^ (self.count - 1)) }
    {
        n >> (self.count - 1) == 0
    }

    // All digits set
    fn ones(self) -> u64
        ensures { suc result ≡ 2 ^ self.count }
    {
        u64::MAX >> (64 - self.count)
    }

    // A shift by 64 is none, so half of n is asked for one digit less.
    fn unsigned_bits(self, n: u64) -> Result<u64, Refusal>
        ensures { bits_reply result ≡ fitting (ltb n (2 ^ self.count)) n }
    {
        if_fits(self.has_more_than(n / 2), n)
    }

    // The integer -(n + 1): the bits of n inverted
    fn negative_bits(self, n: u64) -> Result<u64, Refusal>
        ensures { bits_reply result ≡ complement_of self.count (negsuc n) }
    {
        if self.has_more_than(n) {
            Ok(self.ones() - n)
        } else {
            Err(Refusal::DoesNotFit)
        }
    }

    // One of the digits is the sign.
    fn signed_bits(self, n: i64) -> Result<u64, Refusal>
        ensures { bits_reply result ≡ complement_of self.count n }
    {
        if n < 0 {
            return self.negative_bits(magnitude_less_one(n));
        }
        let digits = n as u64;
        if_fits(self.has_more_than(digits), digits)
    }

    fn double_bits(self, pattern: u64) -> Result<u64, Refusal>
        ensures { bits_reply result ≡ float_field self.count (given_double pattern) }
    {
        if self.count == 64 {
            return Ok(pattern);
        }
        match narrow(pattern) {
            Some(single) => Ok(single as u64),
            None => Err(Refusal::DoesNotFit),
        }
    }

    // The bits that stand for what is given in a field of that width
    pub(crate) fn number_bits(self, number: Number, given: NumberGiven) -> Result<u64, Refusal>
        ensures { bits_reply result ≡ number_field number self.count (given_meant given) }
    {
        match (number, given) {
            (Number::Unsigned, NumberGiven::Unsigned(n)) => self.unsigned_bits(n),
            (Number::Signed, NumberGiven::Signed(n)) => self.signed_bits(n),
            (Number::Float, NumberGiven::Double(pattern)) => self.double_bits(pattern),
            _ => Err(Refusal::OtherKind),
        }
    }
}
