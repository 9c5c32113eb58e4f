// Texts as UTF-8, one call for each encoding.
ghost use Rattle.std.specs.Prelude.{◌≡◌};
ghost use Rattle.definitions.specs.Bytes.{little, big};
ghost use Rattle.definitions.specs.Unicode.{latin1, utf8, utf16, text_written};
ghost use Rattle.replies.specs.Replies.{text_c};
ghost use Rattle.block_replies.specs.Replies.{returned, returned_by};

use mf4::Mf4TextReply;

#[unsafe(no_mangle)]
pub extern "C" fn mf4_text_latin1(bytes: &[u8], out: &mut [u8]) -> Mf4TextReply
    ensures { returned result out.new ≡ returned_by text_c (text_written out.old latin1 bytes.now) }
{
    mf4::mf4_text_latin1(bytes, out)
}

#[unsafe(no_mangle)]
pub extern "C" fn mf4_text_utf8(bytes: &[u8], out: &mut [u8]) -> Mf4TextReply
    ensures { returned result out.new ≡ returned_by text_c (text_written out.old utf8 bytes.now) }
{
    mf4::mf4_text_utf8(bytes, out)
}

#[unsafe(no_mangle)]
pub extern "C" fn mf4_text_utf16_le(bytes: &[u8], out: &mut [u8]) -> Mf4TextReply
    ensures { returned result out.new ≡ returned_by text_c (text_written out.old (utf16 little) bytes.now) }
{
    mf4::mf4_text_utf16_le(bytes, out)
}

#[unsafe(no_mangle)]
pub extern "C" fn mf4_text_utf16_be(bytes: &[u8], out: &mut [u8]) -> Mf4TextReply
    ensures { returned result out.new ≡ returned_by text_c (text_written out.old (utf16 big) bytes.now) }
{
    mf4::mf4_text_utf16_be(bytes, out)
}
