// The answers: a value, or a value with its validity.

// `at` and `length` are a place in the slice; `bits` is the pattern of the double beside it, which tells NaNs apart.
#[derive(Clone, Copy, Debug, PartialEq)]
pub enum DecodedValue {
    UnsignedInteger(u64),
    SignedInteger(i64),
    Float { value: f64, bits: u64 },
    String { at: u64, length: u64 },
    ByteArray { at: u64, length: u64 },
    MimeSample { at: u64, length: u64 },
    MimeStream { at: u64, length: u64 },
    Unknown,
}

#[derive(Clone, Copy, Debug, PartialEq)]
pub struct DecodedChannelValue {
    pub value: DecodedValue,
    pub is_valid: bool,
}
