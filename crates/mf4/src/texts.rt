// Texts as UTF-8, one call for each encoding.
ghost use Rattle.std.specs.Prelude.{◌≡◌};
ghost use Rattle.definitions.specs.Bytes.{little, big};
ghost use Rattle.definitions.specs.Unicode.{latin1, utf8, utf16, text_written};
ghost use Rattle.replies.specs.Replies.{text_c};
ghost use Rattle.block_replies.specs.Replies.{returned, returned_by};

use encodings::Encoding;
use replies::Mf4TextReply;
use text::write_text;

#[unsafe(no_mangle)]
pub extern "C" fn mf4_text_latin1(bytes: &[u8], out: &mut [u8]) -> Mf4TextReply
    ensures { returned result out.new ≡ returned_by text_c (text_written out.old latin1 bytes.now) }
{
    write_text(Encoding::Latin1, bytes, out).into()
}

#[unsafe(no_mangle)]
pub extern "C" fn mf4_text_utf8(bytes: &[u8], out: &mut [u8]) -> Mf4TextReply
    ensures { returned result out.new ≡ returned_by text_c (text_written out.old utf8 bytes.now) }
{
    write_text(Encoding::Utf8, bytes, out).into()
}

#[unsafe(no_mangle)]
pub extern "C" fn mf4_text_utf16_le(bytes: &[u8], out: &mut [u8]) -> Mf4TextReply
    ensures { returned result out.new ≡ returned_by text_c (text_written out.old (utf16 little) bytes.now) }
{
    write_text(Encoding::Utf16Le, bytes, out).into()
}

#[unsafe(no_mangle)]
pub extern "C" fn mf4_text_utf16_be(bytes: &[u8], out: &mut [u8]) -> Mf4TextReply
    ensures { returned result out.new ≡ returned_by text_c (text_written out.old (utf16 big) bytes.now) }
{
    write_text(Encoding::Utf16Be, bytes, out).into()
}
