// Data types, by their codes.
ghost use Rattle.std.specs.Prelude.{◌≡◌};
ghost use Rattle.definitions.specs.DataType.{type_of, code_of, default_bits};

#[unsafe(no_mangle)]
pub extern "C" fn mf4_type_code(code: u8) -> u8
    ensures { result ≡ code_of (type_of code) }
{
    mf4::mf4_type_code(code)
}

#[unsafe(no_mangle)]
pub extern "C" fn mf4_default_bits(code: u8) -> u32
    ensures { result ≡ default_bits (type_of code) }
{
    mf4::mf4_default_bits(code)
}
