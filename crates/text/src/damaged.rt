// The fixed text that stands for a damaged one.
ghost use Rattle.std.specs.Prelude.{◌≡◌, true};
ghost use Rattle.definitions.specs.Unicode.{utf8, utf16, placeholder, written_text};
ghost use Rattle.encodings.specs.Meaning.{order_meant};
ghost use Rattle.text.specs.Meaning.{wrote};
ghost use Rattle.text.specs.Parts.{as_is};

use crate::answer::TextWritten;
use crate::unchanged::write_unchanged;
use refusals::Refusal;

#[tactic(auto, unfolding(definitions::specs::Unicode::placeholder))]
pub fn write_damaged_utf8(out: &mut [u8]) -> Result<TextWritten, Refusal>
    ensures { wrote result out.new ≡ written_text out.old (as_is (placeholder utf8) true) }
{
    write_unchanged(b"<Invalid UTF8>", true, out)
}

#[tactic(auto, unfolding(definitions::specs::Unicode::placeholder))]
pub fn write_damaged_utf16(big_endian: bool, out: &mut [u8]) -> Result<TextWritten, Refusal>
    ensures { wrote result out.new ≡ written_text out.old (as_is (placeholder (utf16 (order_meant big_endian))) true) }
{
    if big_endian {
        write_unchanged(b"<Invalid UTF16BE>", true, out)
    } else {
        write_unchanged(b"<Invalid UTF16LE>", true, out)
    }
}
