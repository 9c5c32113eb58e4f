// UTF-8: its characters, read from their bytes as numbers, and a text that is sound, which comes out as it is.
ghost use Rattle.std.specs.Prelude.{◌≡◌, ◌≤◌, ◌<◌, length, get_or, drop};
ghost use Rattle.definitions.specs.Unicode.{utf8, six_bits, is_scalar, utf8_two, utf8_three, utf8_four, utf8_char, chars, all_sound, written_text};
ghost use Rattle.text.specs.Meaning.{char_meant, wrote};
ghost use Rattle.text.specs.Parts.{CharRead, continuing, whole_text};

use crate::answer::TextWritten;
use crate::character::{Scalar, inside};
use crate::damaged::write_damaged_utf8;
use crate::unchanged::write_unchanged;
use refusals::Refusal;

// the six bits of a byte that continues a character
#[tactic(auto, unfolding(definitions::specs::Unicode::six_bits))]
fn continuing(byte: u32) -> Option<u32>
    ensures { result ≡ continuing byte }
{
    if 0x80 <= byte && byte < 0xC0 {
        Some(byte - 0x80)
    } else {
        None
    }
}

#[tactic(auto, unfolding(definitions::specs::Unicode::is_scalar))]
fn is_scalar(value: u32) -> bool
    ensures { result ≡ is_scalar value }
{
    matches!(value, 0..=0xD7FF | 0xE000..=0x10FFFF)
}

// For each length a function: they differ in the bits of the first byte, the least value and the surrogates, so a common one would
// take all these as arguments.
#[tactic(auto, unfolding(definitions::specs::Unicode::utf8_two))]
fn two_bytes(a: u32, b: u32) -> Option<Scalar>
    requires { (0xC0 ≤ a) × (a < 0xE0) }
    ensures { char_meant result ≡ utf8_two a b }
{
    let value = (a - 0xC0) * 64 + continuing(b)?;
    if value < 0x80 {
        return None;
    }
    Some(Scalar { value, more: 1 })
}

#[tactic(auto, unfolding(definitions::specs::Unicode::utf8_three))]
fn three_bytes(a: u32, b: u32, c: u32) -> Option<Scalar>
    requires { (0xE0 ≤ a) × (a < 0xF0) }
    ensures { char_meant result ≡ utf8_three a b c }
{
    let value = (a - 0xE0) * 4096 + continuing(b)? * 64 + continuing(c)?;
    if value < 0x800 {
        return None;
    }
    if is_scalar(value) {
        Some(Scalar { value, more: 2 })
    } else {
        None
    }
}

#[tactic(auto, unfolding(definitions::specs::Unicode::utf8_four))]
fn four_bytes(a: u32, b: u32, c: u32, d: u32) -> Option<Scalar>
    requires { (0xF0 ≤ a) × (a < 0xF8) }
    ensures { char_meant result ≡ utf8_four a b c d }
{
    let value = (a - 0xF0) * 262144 + continuing(b)? * 4096 + continuing(c)? * 64 + continuing(d)?;
    if value < 0x10000 {
        return None;
    }
    if value < 0x110000 {
        Some(Scalar { value, more: 3 })
    } else {
        None
    }
}

#[tactic(auto, unfolding(definitions::specs::Unicode::utf8_char))]
fn utf8_char(a: u32, b: u32, c: u32, d: u32) -> Option<Scalar>
    ensures { char_meant result ≡ utf8_char a b c d }
{
    if a < 0x80 {
        Some(Scalar { value: a, more: 0 })
    } else if a < 0xC0 {
        None
    } else if a < 0xE0 {
        two_bytes(a, b)
    } else if a < 0xF0 {
        three_bytes(a, b, c)
    } else if a < 0xF8 {
        four_bytes(a, b, c, d)
    } else {
        None
    }
}

// the byte at a place, and 0 past the end
fn byte_at(text: &[u8], at: usize) -> u32
    ensures { result ≡ get_or text.now at 0 }
{
    text.get(at).map_or(0, |byte| *byte as u32)
}

// by four bytes, which is as long as a character can be
fn char_at(text: &[u8], at: usize) -> Option<Scalar>
    requires { at < length text.now }
    ensures { CharRead utf8 (drop at text.now) result }
{
    let a = byte_at(text, at);
    let b = byte_at(text, at + 1);
    let c = byte_at(text, at + 2);
    let d = byte_at(text, at + 3);
    inside(utf8_char(a, b, c, d), text.len() - at)
}

// An ASCII byte decides alone. How far a turn goes depends on what it reads: an iterator would keep the same place, and say no less.
fn is_sound(text: &[u8]) -> bool
    ensures { result ≡ all_sound (chars utf8 0 text.now) }
{
    let mut at: usize = 0;
    while at < text.len() {
        if text[at] < 0x80 {
            at += 1;
        } else {
            let Some(scalar) = char_at(text, at) else {
                return false;
            };
            at = at + 1 + scalar.more;
        }
    }
    true
}

// UTF-8 that is sound is its own bytes, so nothing is encoded anew
pub fn write_utf8(text: &[u8], out: &mut [u8]) -> Result<TextWritten, Refusal>
    ensures { wrote result out.new ≡ written_text out.old (whole_text utf8 text.now) }
{
    if is_sound(text) {
        write_unchanged(text, false, out)
    } else {
        write_damaged_utf8(out)
    }
}
