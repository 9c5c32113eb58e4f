// Values of channels.
ghost use Rattle.std.specs.Prelude.{◌≡◌};
ghost use Rattle.fields.specs.Meaning.{value_meant, value_reply};
ghost use Rattle.replies.specs.Values.{number_c, place_c, decoded_c, value_c};

use fields::DecodedValue;
use refusals::Refusal;

#[repr(C)]
#[derive(Clone, Copy, Debug, Default, PartialEq, Eq)]
pub struct Mf4ValueReply {
    pub reply: u32,
    pub told: u64,
    pub kind: u32,
    pub number: u64,
    pub at: u64,
    pub length: u64,
}

// What C is told of a value
#[derive(Clone, Copy)]
pub(crate) struct Shown {
    pub(crate) kind: u32,
    pub(crate) number: u64,
    pub(crate) at: u64,
    pub(crate) length: u64,
}

impl Shown {
    fn number(kind: u32, number: u64) -> Shown
        ensures { result ≡ number_c kind number }
    {
        Shown {
            kind,
            number,
            at: 0,
            length: 0,
        }
    }

    // bytes, by their place and length
    fn place(kind: u32, at: u64, length: u64) -> Shown
        ensures { result ≡ place_c kind at length }
    {
        Shown {
            kind,
            number: 0,
            at,
            length,
        }
    }
}

impl From<DecodedValue> for Shown {
    ghost from_gives = { λ value told. told ≡ decoded_c (value_meant value) };

    fn from(value: DecodedValue) -> Shown {
        match value {
            DecodedValue::UnsignedInteger(n) => Shown::number(1, n),
            DecodedValue::SignedInteger(n) => Shown::number(2, n.cast_unsigned()),
            DecodedValue::Float { bits, .. } => Shown::number(3, bits),
            DecodedValue::String { at, length } => Shown::place(4, at, length),
            DecodedValue::ByteArray { at, length } => Shown::place(5, at, length),
            DecodedValue::MimeSample { at, length } => Shown::place(6, at, length),
            DecodedValue::MimeStream { at, length } => Shown::place(7, at, length),
            DecodedValue::Unknown => Shown::place(8, 0, 0),
        }
    }
}

impl From<Result<DecodedValue, Refusal>> for Mf4ValueReply {
    ghost from_gives = { λ read reply. reply ≡ value_c (value_reply read) };

    fn from(read: Result<DecodedValue, Refusal>) -> Mf4ValueReply {
        match read {
            Ok(value) => {
                let told = Shown::from(value);
                Mf4ValueReply {
                    reply: 0,
                    told: 0,
                    kind: told.kind,
                    number: told.number,
                    at: told.at,
                    length: told.length,
                }
            }
            Err(why) => Mf4ValueReply {
                reply: why.number(),
                told: why.told(),
                ..Mf4ValueReply::default()
            },
        }
    }
}
