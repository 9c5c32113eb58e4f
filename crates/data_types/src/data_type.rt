// The data types of channels, with their codes.
ghost use Rattle.std.specs.Prelude.{◌≡◌};
ghost use Rattle.definitions.specs.DataType.{type_of, code_of, default_bits};
ghost use Rattle.data_types.specs.Meaning.{type_meant};

#[derive(Clone, Copy, Debug, PartialEq, Eq)]
pub enum DataType {
    UnsignedIntegerLE,
    UnsignedIntegerBE,
    SignedIntegerLE,
    SignedIntegerBE,
    FloatLE,
    FloatBE,
    StringLatin1,
    StringUtf8,
    StringUtf16LE,
    StringUtf16BE,
    ByteArray,
    MimeSample,
    MimeStream,
    CanOpenDate,
    CanOpenTime,
    ComplexLE,
    ComplexBE,
    // any other, by its code
    Unknown(u8),
}

impl DataType {
    // A method and no From, since theorems (type_read_settled) and docs/CALLS.md name it; to_u8 likewise
    pub fn from_u8(value: u8) -> DataType
        ensures { type_meant result ≡ type_of value }
    {
        match value {
            0 => DataType::UnsignedIntegerLE,
            1 => DataType::UnsignedIntegerBE,
            2 => DataType::SignedIntegerLE,
            3 => DataType::SignedIntegerBE,
            4 => DataType::FloatLE,
            5 => DataType::FloatBE,
            6 => DataType::StringLatin1,
            7 => DataType::StringUtf8,
            8 => DataType::StringUtf16LE,
            9 => DataType::StringUtf16BE,
            10 => DataType::ByteArray,
            11 => DataType::MimeSample,
            12 => DataType::MimeStream,
            13 => DataType::CanOpenDate,
            14 => DataType::CanOpenTime,
            15 => DataType::ComplexLE,
            16 => DataType::ComplexBE,
            _ => DataType::Unknown(value),
        }
    }

    pub fn to_u8(self) -> u8
        ensures { result ≡ code_of (type_meant self) }
    {
        match self {
            DataType::UnsignedIntegerLE => 0,
            DataType::UnsignedIntegerBE => 1,
            DataType::SignedIntegerLE => 2,
            DataType::SignedIntegerBE => 3,
            DataType::FloatLE => 4,
            DataType::FloatBE => 5,
            DataType::StringLatin1 => 6,
            DataType::StringUtf8 => 7,
            DataType::StringUtf16LE => 8,
            DataType::StringUtf16BE => 9,
            DataType::ByteArray => 10,
            DataType::MimeSample => 11,
            DataType::MimeStream => 12,
            DataType::CanOpenDate => 13,
            DataType::CanOpenTime => 14,
            DataType::ComplexLE => 15,
            DataType::ComplexBE => 16,
            DataType::Unknown(code) => code,
        }
    }

    pub fn default_bits(self) -> u32
        ensures { result ≡ default_bits (type_meant self) }
    {
        match self {
            DataType::UnsignedIntegerLE
            | DataType::UnsignedIntegerBE
            | DataType::SignedIntegerLE
            | DataType::SignedIntegerBE
            | DataType::FloatLE
            | DataType::FloatBE => 32,
            DataType::ComplexLE
            | DataType::ComplexBE
            | DataType::CanOpenDate
            | DataType::CanOpenTime => 64,
            _ => 8,
        }
    }
}
