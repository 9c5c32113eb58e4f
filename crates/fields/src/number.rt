// A number's field, and what it stands for.
ghost use Rattle.std.specs.Prelude.{◌≡◌, ◌^◌, ◌<◌};
ghost use Rattle.definitions.specs.Bytes.{field_at};
ghost use Rattle.definitions.specs.Channel.{double_value, float_bits};
ghost use Rattle.fields.specs.Meaning.{value_meant};
ghost use Rattle.fields.specs.Form.{order_meant, number_value};
ghost use Rattle.fields.specs.Known.{FieldBounds, Fitting};

use crate::form::Number;
use crate::value::DecodedValue;
use bit_fields::{Big, Little, field, signed_of};
use doubles::{value_of, widen};

pub fn number_at(record: &[u8], at: usize, big_endian: bool, bit_offset: u32, bit_count: u32) -> u64
    requires { FieldBounds «record».now at bit_offset bit_count }
    ensures { result ≡ field_at (order_meant big_endian) «record».now at bit_offset bit_count }
{
    if big_endian {
        field::<Big>(record, at, bit_offset, bit_count)
    } else {
        field::<Little>(record, at, bit_offset, bit_count)
    }
}

// A field of 64 bits is a pattern already.
pub fn float_bits(bit_count: u32, x: u64) -> u64
    requires { (bit_count ≡ 64 → ⊥) → x < 2 ^ 32 }
    ensures { result ≡ float_bits bit_count x }
{
    if bit_count == 64 {
        return x;
    }
    widen(x as u32)
}

fn float_of(bits: u64) -> DecodedValue
    ensures { value_meant result ≡ double_value bits }
{
    DecodedValue::Float {
        value: value_of(bits),
        bits,
    }
}

pub fn number_value(number: Number, bit_count: u32, x: u64) -> DecodedValue
    requires { Fitting number bit_count x }
    ensures { value_meant result ≡ number_value number bit_count x }
{
    match number {
        Number::Unsigned => DecodedValue::UnsignedInteger(x),
        Number::Signed => DecodedValue::SignedInteger(signed_of(x, bit_count)),
        Number::Float => float_of(float_bits(bit_count, x)),
    }
}
