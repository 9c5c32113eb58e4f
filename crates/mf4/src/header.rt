// Block headers.
ghost use Rattle.std.specs.Prelude.{◌≡◌};
ghost use Rattle.definitions.specs.Header.{header_of, header_written};
ghost use Rattle.block_replies.specs.Replies.{header_c, header_given, written_c, returned, returned_by};

use block_replies::{Mf4Header, Mf4HeaderReply, Mf4WrittenReply};
use blocks::BlockHeader;

#[unsafe(no_mangle)]
pub extern "C" fn mf4_read_header(bytes: &[u8]) -> Mf4HeaderReply
    ensures { result ≡ header_c (header_of bytes.now) }
{
    BlockHeader::from_bytes(bytes).into()
}

#[unsafe(no_mangle)]
pub extern "C" fn mf4_write_header(header: Mf4Header, out: &mut [u8]) -> Mf4WrittenReply
    ensures { returned result out.new ≡ returned_by written_c (header_written out.old (header_given header)) }
{
    BlockHeader::from(header).to_bytes(out).into()
}
