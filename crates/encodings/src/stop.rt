// Where a text stops: at the first zero, or at its end.
ghost use Rattle.std.specs.Prelude.{◌≡◌, ◌&&◌, length, position, nat_eq, slice_index};
ghost use Rattle.definitions.specs.Unicode.{before_nul, before_zero_unit, stopped};
ghost use Rattle.encodings.specs.Meaning.{encoding_of};

use crate::encoding::Encoding;

fn first_nul(bytes: &[u8]) -> Option<usize>
    ensures { result ≡ position (λ byte. nat_eq byte 0) bytes.now }
{
    bytes.iter().position(|byte| *byte == 0)
}

fn before_nul(bytes: &[u8]) -> usize
    ensures { result ≡ length (before_nul bytes.now) }
{
    first_nul(bytes).unwrap_or(bytes.len())
}

fn first_zero_unit(units: &[[u8; 2]]) -> Option<usize>
    ensures { result ≡ position (λ unit. nat_eq (slice_index unit 0) 0 && nat_eq (slice_index unit 1) 0) units.now }
{
    units.iter().position(|unit| unit[0] == 0 && unit[1] == 0)
}

// an odd last byte is no unit
fn before_zero_unit(bytes: &[u8]) -> usize
    ensures { result ≡ length (before_zero_unit bytes.now) }
{
    let (units, _) = bytes.as_chunks();
    first_zero_unit(units).unwrap_or(units.len()) * 2
}

#[tactic(auto, unfolding(definitions::specs::Unicode::stopped))]
pub fn text_end(encoding: Encoding, bytes: &[u8]) -> usize
    ensures { result ≡ length (stopped (encoding_of encoding) bytes.now) }
{
    match encoding {
        Encoding::Latin1 | Encoding::Utf8 => before_nul(bytes),
        Encoding::Utf16Le | Encoding::Utf16Be => before_zero_unit(bytes),
    }
}
