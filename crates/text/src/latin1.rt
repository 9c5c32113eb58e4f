// Latin-1: a byte is its scalar value, so no text is damaged.
ghost use Rattle.std.specs.Prelude.{◌≡◌, ◌≤◌, length};
ghost use Rattle.std.proofs.lemmas.List.Edits.{sets};
ghost use Rattle.definitions.specs.Unicode.{latin1, chars, chars_utf8, written_text};
ghost use Rattle.text.specs.Meaning.{wrote};
ghost use Rattle.text.specs.Parts.{whole_text};

use crate::answer::TextWritten;
use crate::encode::put_utf8;
use crate::unchanged::write_unchanged;
use refusals::Refusal;

// one byte for each of ASCII, two for any other, with no branch
fn latin1_size(text: &[u8]) -> usize
    ensures { result ≡ length (chars_utf8 (chars latin1 0 text.now)) }
{
    let mut size: usize = 0;
    for byte in text {
        size += 1 + (*byte / 128) as usize;
    }
    size
}

fn put_latin1(text: &[u8], out: &mut [u8])
    requires { length (chars_utf8 (chars latin1 0 text.now)) ≤ length out.old }
    ensures { out.new ≡ sets out.old 0 (chars_utf8 (chars latin1 0 text.now)) }
{
    let mut end: usize = 0;
    for byte in text {
        end = put_utf8(out, end, *byte as u32);
    }
}

pub fn write_latin1(text: &[u8], out: &mut [u8]) -> Result<TextWritten, Refusal>
    ensures { wrote result out.new ≡ written_text out.old (whole_text latin1 text.now) }
{
    let size = latin1_size(text);
    // all of it is ASCII
    if size == text.len() {
        return write_unchanged(text, false, out);
    }
    let count = size as u64;
    if out.len() < size {
        return Err(Refusal::NoRoom(count));
    }
    put_latin1(text, out);
    Ok(TextWritten {
        count,
        damaged: false,
    })
}
