// What the bytes of a text, an array or a MIME value stand for.
ghost use Rattle.std.specs.Prelude.{◌≡◌, ◌+◌, ◌≤◌, length};
ghost use Rattle.definitions.specs.Bytes.{span};
ghost use Rattle.definitions.specs.Unicode.{stopped};
ghost use Rattle.definitions.specs.Channel.{text};
ghost use Rattle.encodings.specs.Meaning.{encoding_of};
ghost use Rattle.fields.specs.Meaning.{value_meant};
ghost use Rattle.fields.specs.Form.{content_value};

use crate::field::FieldSpan;
use crate::form::Content;
use crate::value::DecodedValue;
use encodings::{Encoding, text_end};

// A text ends where it stops.
fn text_at(record: &[u8], field: FieldSpan, encoding: Encoding) -> DecodedValue
    requires { field.at + field.length ≤ length «record».now }
    ensures { value_meant result ≡ text field.at (length (stopped (encoding_of encoding) (span «record».now field.at field.length))) }
{
    let end = field.at + field.length;
    let stop = text_end(encoding, &record[field.at..end]);
    DecodedValue::String {
        at: field.at as u64,
        length: stop as u64,
    }
}

pub fn content_at(record: &[u8], field: FieldSpan, content: Content) -> DecodedValue
    requires { field.at + field.length ≤ length «record».now }
    ensures { value_meant result ≡ content_value content «record».now field.at field.length }
{
    let at = field.at as u64;
    let length = field.length as u64;
    match content {
        Content::Text(encoding) => text_at(record, field, encoding),
        Content::ByteArray => DecodedValue::ByteArray { at, length },
        Content::MimeSample => DecodedValue::MimeSample { at, length },
        Content::MimeStream => DecodedValue::MimeStream { at, length },
        Content::Undecoded => DecodedValue::Unknown,
    }
}
