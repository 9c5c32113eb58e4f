// Data types, by their codes.
ghost use Rattle.std.specs.Prelude.{◌≡◌};
ghost use Rattle.definitions.specs.DataType.{type_of, code_of, default_bits};

use data_types::DataType;

#[unsafe(no_mangle)]
pub extern "C" fn mf4_type_code(code: u8) -> u8
    ensures { result ≡ code_of (type_of code) }
{
    DataType::from_u8(code).to_u8()
}

#[unsafe(no_mangle)]
pub extern "C" fn mf4_default_bits(code: u8) -> u32
    ensures { result ≡ default_bits (type_of code) }
{
    DataType::from_u8(code).default_bits()
}
