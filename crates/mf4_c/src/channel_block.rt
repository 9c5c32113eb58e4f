// Channel blocks, read and written.
ghost use Rattle.std.specs.Prelude.{◌≡◌};
ghost use Rattle.definitions.specs.ChannelBlock.{channel_block_of, channel_written};
ghost use Rattle.block_replies.specs.Replies.{written_c, returned, returned_by};
ghost use Rattle.block_replies.specs.Channels.{channel_c, block_given};

use mf4::{Mf4ChannelBlock, Mf4ChannelReply, Mf4WrittenReply};

#[unsafe(no_mangle)]
pub extern "C" fn mf4_read_channel(bytes: &[u8]) -> Mf4ChannelReply
    ensures { result ≡ channel_c (channel_block_of bytes.now) }
{
    mf4::mf4_read_channel(bytes)
}

#[unsafe(no_mangle)]
pub extern "C" fn mf4_write_channel(block: Mf4ChannelBlock, out: &mut [u8]) -> Mf4WrittenReply
    ensures { returned result out.new ≡ returned_by written_c (channel_written out.old (block_given block)) }
{
    mf4::mf4_write_channel(block, out)
}
