// The text of some bytes, written as UTF-8 where it fits.
ghost use Rattle.std.specs.Prelude.{◌≡◌};
ghost use Rattle.definitions.specs.Unicode.{text_written};
ghost use Rattle.encodings.specs.Meaning.{encoding_of};
ghost use Rattle.text.specs.Meaning.{wrote};

use crate::answer::TextWritten;
use crate::latin1::write_latin1;
use crate::utf8::write_utf8;
use crate::utf16::write_utf16;
use encodings::{Encoding, text_end};
use refusals::Refusal;

// Each call for C knows its encoding, so it stands inlined there: a function apart would give its answer through memory.
#[inline(always)]
pub fn write_text(encoding: Encoding, bytes: &[u8], out: &mut [u8]) -> Result<TextWritten, Refusal>
    ensures { wrote result out.new ≡ text_written out.old (encoding_of encoding) bytes.now }
{
    let end = text_end(encoding, bytes);
    let text = &bytes[..end];
    match encoding {
        Encoding::Latin1 => write_latin1(text, out),
        Encoding::Utf8 => write_utf8(text, out),
        Encoding::Utf16Le => write_utf16(text, false, out),
        Encoding::Utf16Be => write_utf16(text, true, out),
    }
}
