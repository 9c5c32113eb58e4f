// How a type's field lies in its bytes, and what it becomes.
ghost use Rattle.std.specs.Prelude.{◌≡◌};
ghost use Rattle.data_types.specs.Meaning.{type_meant};
ghost use Rattle.fields.specs.Form.{form_of};

use data_types::DataType;
use encodings::Encoding;

#[derive(Clone, Copy, Debug, PartialEq, Eq)]
pub enum Number {
    Unsigned,
    Signed,
    Float,
}

#[derive(Clone, Copy, Debug, PartialEq, Eq)]
pub enum Content {
    Text(Encoding),
    ByteArray,
    MimeSample,
    MimeStream,
    Undecoded,
}

#[derive(Clone, Copy, Debug, PartialEq, Eq)]
pub enum Form {
    // and whether its bytes are big-endian: a flag, since that is known only when it runs
    Number(Number, bool),
    Other(Content),
}

pub fn form_of(data_type: DataType) -> Form
    ensures { result ≡ form_of (type_meant data_type) }
{
    match data_type {
        DataType::UnsignedIntegerLE => Form::Number(Number::Unsigned, false),
        DataType::UnsignedIntegerBE => Form::Number(Number::Unsigned, true),
        DataType::SignedIntegerLE => Form::Number(Number::Signed, false),
        DataType::SignedIntegerBE => Form::Number(Number::Signed, true),
        DataType::FloatLE => Form::Number(Number::Float, false),
        DataType::FloatBE => Form::Number(Number::Float, true),
        DataType::StringLatin1 => Form::Other(Content::Text(Encoding::Latin1)),
        DataType::StringUtf8 => Form::Other(Content::Text(Encoding::Utf8)),
        DataType::StringUtf16LE => Form::Other(Content::Text(Encoding::Utf16Le)),
        DataType::StringUtf16BE => Form::Other(Content::Text(Encoding::Utf16Be)),
        DataType::ByteArray => Form::Other(Content::ByteArray),
        DataType::MimeSample => Form::Other(Content::MimeSample),
        DataType::MimeStream => Form::Other(Content::MimeStream),
        DataType::CanOpenDate
        | DataType::CanOpenTime
        | DataType::ComplexLE
        | DataType::ComplexBE
        | DataType::Unknown(_) => Form::Other(Content::Undecoded),
    }
}
