// Block headers.
ghost use Rattle.std.specs.Prelude.{◌≡◌};
ghost use Rattle.definitions.specs.Header.{header_of, header_written};
ghost use Rattle.block_replies.specs.Replies.{header_c, header_given, written_c, returned, returned_by};

use mf4::{Mf4Header, Mf4HeaderReply, Mf4WrittenReply};

#[unsafe(no_mangle)]
pub extern "C" fn mf4_read_header(bytes: &[u8]) -> Mf4HeaderReply
    ensures { result ≡ header_c (header_of bytes.now) }
{
    mf4::mf4_read_header(bytes)
}

#[unsafe(no_mangle)]
pub extern "C" fn mf4_write_header(header: Mf4Header, out: &mut [u8]) -> Mf4WrittenReply
    ensures { returned result out.new ≡ returned_by written_c (header_written out.old (header_given header)) }
{
    mf4::mf4_write_header(header, out)
}
