// Channel blocks, read and written.
use crate::answers::{FILL, reply, written};
use crate::field_reads::channel;
use crate::line_words::Words;
use crate::list_blocks::header;
use mf4::{Mf4ChannelBlock, Mf4ChannelReply, mf4_read_channel, mf4_write_channel};

fn block(words: &mut Words) -> Option<Mf4ChannelBlock> {
    Some(Mf4ChannelBlock {
        header: header(words)?,
        next_ch_addr: words.number()?,
        component_addr: words.number()?,
        name_addr: words.number()?,
        source_addr: words.number()?,
        conversion_addr: words.number()?,
        unit_addr: words.number()?,
        comment_addr: words.number()?,
        more_links_at: words.number()?,
        more_link_count: words.number()?,
        channel: channel(words)?,
        sync_type: words.byte()?,
        precision: words.byte()?,
        reserved1: words.byte()?,
        attachment_count: words.short()?,
        min_raw_value: words.number()?,
        max_raw_value: words.number()?,
        lower_limit: words.number()?,
        upper_limit: words.number()?,
        lower_ext_limit: words.number()?,
        upper_ext_limit: words.number()?,
    })
}

// Beside a refusal every other field is 0
fn block_due(words: &mut Words) -> Option<Mf4ChannelReply> {
    let answer = reply(words)?;
    Some(Mf4ChannelReply {
        reply: answer.reply,
        told: answer.told,
        block: if answer.reply == 0 {
            block(words)?
        } else {
            Mf4ChannelBlock::default()
        },
    })
}

pub(crate) fn read_channel(words: &mut Words) -> Option<()> {
    let mut space = [0u8; 512];
    let given = mf4_read_channel(words.bytes(&mut space)?);
    words.sign(b'=')?;
    (given == block_due(words)?).then_some(())
}

pub(crate) fn write_channel(words: &mut Words) -> Option<()> {
    let mut out = [FILL; 512];
    let block = block(words)?;
    let given = mf4_write_channel(block, words.room(&mut out)?);
    words.sign(b'=')?;
    (given == written(words, &out)?).then_some(())
}
