// UTF-16 in either byte order: its characters, and the two passes over a text, of which one measures and the other writes.
ghost use Rattle.std.specs.Prelude.{◌≡◌, ◌+◌, ◌≤◌, ◌<◌, length, get_or, drop};
ghost use Rattle.std.proofs.lemmas.List.Edits.{sets};
ghost use Rattle.definitions.specs.Unicode.{utf16, unit_of, utf16_char, chars, chars_utf8, written_text};
ghost use Rattle.encodings.specs.Meaning.{order_meant};
ghost use Rattle.text.specs.Meaning.{char_meant, wrote};
ghost use Rattle.text.specs.Parts.{high_byte, CharRead, size_of, whole_text};

use crate::answer::TextWritten;
use crate::character::{Scalar, inside};
use crate::damaged::write_damaged_utf16;
use crate::encode::{put_utf8, utf8_width};
use refusals::Refusal;

// A test at a time: of tests that were drawn together the compiler made loops that took a third longer.
#[tactic(auto, unfolding(definitions::specs::Unicode::utf16_char))]
fn utf16_char(unit: u32, next: u32) -> Option<Scalar>
    ensures { char_meant result ≡ utf16_char unit next }
{
    if unit < 0xD800 {
        return Some(Scalar {
            value: unit,
            more: 1,
        });
    }
    if 0xE000 <= unit {
        return Some(Scalar {
            value: unit,
            more: 1,
        });
    }
    if 0xDC00 <= unit {
        return None;
    }
    if next < 0xDC00 {
        return None;
    }
    if next < 0xE000 {
        Some(Scalar {
            value: 0x10000 + (unit - 0xD800) * 1024 + (next - 0xDC00),
            more: 3,
        })
    } else {
        None
    }
}

// where in a unit its high byte stands
fn high_byte(big_endian: bool) -> usize
    ensures { (result ≡ high_byte big_endian) × (result ≤ 1) }
{
    if big_endian { 0 } else { 1 }
}

fn unit_at(text: &[u8], at: usize, big_endian: bool) -> u32
    requires { at + 1 < length text.now }
    ensures { result ≡ unit_of (order_meant big_endian) (get_or text.now at 0) (get_or text.now (at + 1) 0) }
{
    let high = high_byte(big_endian);
    let low = 1 - high;
    text[at + high] as u32 * 256 + text[at + low] as u32
}

// by two units, which is as long as a character can be: in fewer than four bytes the second does not matter
fn char_at(text: &[u8], at: usize, big_endian: bool) -> Option<Scalar>
    requires { at + 1 < length text.now }
    ensures { CharRead (utf16 (order_meant big_endian)) (drop at text.now) result }
{
    let unit = unit_at(text, at, big_endian);
    let left = text.len() - at;
    if left < 4 {
        return inside(utf16_char(unit, 0), left);
    }
    inside(utf16_char(unit, unit_at(text, at + 2, big_endian)), left)
}

// What a sound text takes as UTF-8: a unit below the surrogates decides alone; half a unit at the end is damage. A turn goes as far
// as its character, here and where it is written: an iterator would keep the same place, and say no less.
fn measure(text: &[u8], big_endian: bool) -> Option<usize>
    ensures { result ≡ size_of (chars (utf16 (order_meant big_endian)) 0 text.now) }
{
    let mut at: usize = 0;
    let mut size: usize = 0;
    while at + 1 < text.len() {
        let unit = unit_at(text, at, big_endian);
        if unit < 0xD800 {
            size += utf8_width(unit);
            at += 2;
        } else {
            let scalar = char_at(text, at, big_endian)?;
            size += utf8_width(scalar.value);
            at = at + 1 + scalar.more;
        }
    }
    if at < text.len() {
        return None;
    }
    Some(size)
}

// damage writes nothing, and there is none where the text was measured
fn put_utf16(text: &[u8], big_endian: bool, out: &mut [u8])
    requires { length (chars_utf8 (chars (utf16 (order_meant big_endian)) 0 text.now)) ≤ length out.old }
    ensures { out.new ≡ sets out.old 0 (chars_utf8 (chars (utf16 (order_meant big_endian)) 0 text.now)) }
{
    let mut at: usize = 0;
    let mut end: usize = 0;
    while at + 1 < text.len() {
        let unit = unit_at(text, at, big_endian);
        if unit < 0xD800 {
            end = put_utf8(out, end, unit);
            at += 2;
        } else {
            match char_at(text, at, big_endian) {
                Some(scalar) => {
                    end = put_utf8(out, end, scalar.value);
                    at = at + 1 + scalar.more;
                }
                None => at += 1,
            }
        }
    }
}

// The byte order is a flag, and no type parameter: of that the archive would hold the loops twice.
pub fn write_utf16(text: &[u8], big_endian: bool, out: &mut [u8]) -> Result<TextWritten, Refusal>
    ensures { wrote result out.new ≡ written_text out.old (whole_text (utf16 (order_meant big_endian)) text.now) }
{
    let Some(size) = measure(text, big_endian) else {
        return write_damaged_utf16(big_endian, out);
    };
    let count = size as u64;
    if out.len() < size {
        return Err(Refusal::NoRoom(count));
    }
    put_utf16(text, big_endian, out);
    Ok(TextWritten {
        count,
        damaged: false,
    })
}
