// The patterns of doubles that stand for no number, the parts of a pattern, and the same of 32-bit floats.
pub(crate) const INFINITY: u64 = 0x7ff0_0000_0000_0000;

// The NaN that stands for no value
pub const NAN: u64 = 0x7ff8_0000_0000_0000;

pub(crate) const SIGN: u64 = 0x8000_0000_0000_0000;

pub(crate) const ALL_BUT_SIGN: u64 = 0x7fff_ffff_ffff_ffff;

// Below the leading bit of a significand
pub(crate) const FRACTION_BITS: u32 = 52;
// That bit. It is set in every normal number, so no pattern stores it.
pub(crate) const LEADING: u64 = 1 << FRACTION_BITS;
// The exponent's field of 2^0
pub(crate) const BIAS: u64 = 1023;

// Patterns of 32-bit floats.
pub(crate) const LEAST_NORMAL_32: u32 = 0x0080_0000;

pub(crate) const INFINITY_32: u32 = 0x7f80_0000;

pub(crate) const NAN_32: u32 = 0x7fc0_0000;

pub(crate) const SIGN_32: u32 = 0x8000_0000;

pub(crate) const ALL_BUT_SIGN_32: u32 = 0x7fff_ffff;
// A pattern below the normal ones counts units of 2^-149.
pub(crate) const UNIT_PLACES_32: u64 = 149;

// What a double has more: a 32-bit float has a fraction of 23 bits, and a bias of 127.
pub(crate) const MORE_FRACTION_BITS: u32 = FRACTION_BITS - 23;

pub(crate) const MORE_BIAS: u64 = (BIAS - 127) << FRACTION_BITS;
