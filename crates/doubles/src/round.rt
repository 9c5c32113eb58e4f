// The double nearest to a whole number.
ghost use Rattle.std.specs.Prelude.{◌≡◌, pos};
ghost use Prim.Native.Nat.{◌+◌, ◌*◌, ◌^◌, ◌≤◌, ◌<◌, compare};
ghost use Rattle.std.specs.Float.Ieee.{nearest};
ghost use Rattle.definitions.specs.Ieee754.{double_of};

use crate::patterns::{BIAS, FRACTION_BITS, LEADING};

// A significand keeps 53 bits of a word whose highest is set. Its last one counts 2^11 there, and the 11 below are dropped.
const LAST_KEPT: u64 = 1 << (64 - 53);

const HALF: u64 = LAST_KEPT / 2;

// The place of the highest set bit, counted from 0
// By the count of leading zeros, as the rules want it, and not by the library's `ilog2`.
fn highest_set_bit(n: u64) -> u32
    requires { 0 < n }
    ensures { (result < 64) × (2 ^ result ≤ n) × (n < 2 ^ (result + 1)) }
{
    63 - n.leading_zeros()
}

// What is kept, to the nearest: over half goes up, under half stays, and half goes to the even one.
fn rounded(kept: u64, dropped: u64) -> u64
    requires { kept < 2 ^ 53 }
    ensures { result ≡ nearest kept (compare (dropped * 2) (2 ^ 11)) }
{
    let half_goes_up = kept % 2 == 1;
    // Two cases, not three: of these the compiler makes one comparison, of three it made branches, which random bits mislead.
    let goes_up = if half_goes_up {
        dropped >= HALF
    } else {
        dropped > HALF
    };
    if goes_up { kept + 1 } else { kept }
}

// The pattern of the double that is nearest to n, and of two the one with the even significand.
pub fn double_of(n: u64) -> u64
    ensures { result ≡ double_of (pos n) }
{
    if n == 0 {
        return 0;
    }
    let highest = highest_set_bit(n);
    // With that bit on top every number is split at one place. One of up to 53 bits drops only zeros there: it is exact.
    let aligned = n << (63 - highest);
    let kept = aligned / LAST_KEPT;
    let dropped = aligned % LAST_KEPT;
    let significand = rounded(kept, dropped);
    let exponent = (BIAS + highest as u64) << FRACTION_BITS;
    // A carry to 2^53, the next power of two, adds one to the exponent and leaves a fraction of 0.
    exponent + (significand - LEADING)
}
