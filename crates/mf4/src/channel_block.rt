// Channel blocks, read and written.
ghost use Rattle.std.specs.Prelude.{◌≡◌};
ghost use Rattle.definitions.specs.ChannelBlock.{channel_block_of, channel_written};
ghost use Rattle.block_replies.specs.Replies.{written_c, returned, returned_by};
ghost use Rattle.block_replies.specs.Channels.{channel_c, block_given};

use block_replies::{Mf4ChannelBlock, Mf4ChannelReply, Mf4WrittenReply};
use channels::ChannelBlock;

#[unsafe(no_mangle)]
pub extern "C" fn mf4_read_channel(bytes: &[u8]) -> Mf4ChannelReply
    ensures { result ≡ channel_c (channel_block_of bytes.now) }
{
    ChannelBlock::from_bytes(bytes).into()
}

#[unsafe(no_mangle)]
pub extern "C" fn mf4_write_channel(block: Mf4ChannelBlock, out: &mut [u8]) -> Mf4WrittenReply
    ensures { returned result out.new ≡ returned_by written_c (channel_written out.old (block_given block)) }
{
    ChannelBlock::from(block).to_bytes(out).into()
}
