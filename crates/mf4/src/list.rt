// Data lists, read and written.
ghost use Rattle.std.specs.Prelude.{◌≡◌};
ghost use Rattle.definitions.specs.DataList.{list_of, list_written, equal, variable};
ghost use Rattle.block_replies.specs.Replies.{list_c, written_c, returned, returned_by};

use block_replies::{Mf4ListReply, Mf4WrittenReply};
use blocks::DataListBlock;

#[unsafe(no_mangle)]
pub extern "C" fn mf4_read_list(bytes: &[u8]) -> Mf4ListReply
    ensures { result ≡ list_c (list_of bytes.now) }
{
    DataListBlock::from_bytes(bytes).into()
}

#[unsafe(no_mangle)]
pub extern "C" fn mf4_write_list_equal(
    next_addr: u64,
    links: &[u64],
    length: u64,
    out: &mut [u8],
) -> Mf4WrittenReply
    ensures { returned result out.new ≡ returned_by written_c (list_written out.old next_addr links.now (equal length)) }
{
    DataListBlock::write_equal(next_addr, links, length, out).into()
}

#[unsafe(no_mangle)]
pub extern "C" fn mf4_write_list_variable(
    next_addr: u64,
    links: &[u64],
    offsets: &[u64],
    out: &mut [u8],
) -> Mf4WrittenReply
    ensures { returned result out.new ≡ returned_by written_c (list_written out.old next_addr links.now (variable offsets.now)) }
{
    DataListBlock::write_variable(next_addr, links, offsets, out).into()
}
