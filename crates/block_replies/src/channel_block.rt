// Channel blocks.
ghost use Rattle.std.specs.Prelude.{◌≡◌};
ghost use Rattle.channels.specs.Meaning.{channel_block_meant, channel_block_reply};
ghost use Rattle.block_replies.specs.Channels.{block_c, block_given, channel_c};

use crate::channel::Mf4Channel;
use crate::header::Mf4Header;
use channels::ChannelBlock;
use fields::Channel;
use refusals::Refusal;

#[repr(C)]
#[derive(Clone, Copy, Debug, Default, PartialEq, Eq)]
pub struct Mf4ChannelBlock {
    pub header: Mf4Header,
    pub next_ch_addr: u64,
    pub component_addr: u64,
    pub name_addr: u64,
    pub source_addr: u64,
    pub conversion_addr: u64,
    pub unit_addr: u64,
    pub comment_addr: u64,
    pub more_links_at: u64,
    pub more_link_count: u64,
    // the description, with the data link
    pub channel: Mf4Channel,
    pub sync_type: u8,
    pub precision: u8,
    pub reserved1: u8,
    pub attachment_count: u16,
    pub min_raw_value: u64,
    pub max_raw_value: u64,
    pub lower_limit: u64,
    pub upper_limit: u64,
    pub lower_ext_limit: u64,
    pub upper_ext_limit: u64,
}

#[repr(C)]
#[derive(Clone, Copy, Debug, Default, PartialEq, Eq)]
pub struct Mf4ChannelReply {
    pub reply: u32,
    pub told: u64,
    pub block: Mf4ChannelBlock,
}

impl From<ChannelBlock> for Mf4ChannelBlock {
    ghost from_gives = { λ b told. told ≡ block_c (channel_block_meant b) };

    fn from(b: ChannelBlock) -> Mf4ChannelBlock {
        Mf4ChannelBlock {
            header: b.header.into(),
            next_ch_addr: b.next_ch_addr,
            component_addr: b.component_addr,
            name_addr: b.name_addr,
            source_addr: b.source_addr,
            conversion_addr: b.conversion_addr,
            unit_addr: b.unit_addr,
            comment_addr: b.comment_addr,
            more_links_at: b.more_links_at,
            more_link_count: b.more_links,
            channel: b.channel().into(),
            sync_type: b.sync_type,
            precision: b.precision,
            reserved1: b.reserved1,
            attachment_count: b.attachment_nr,
            min_raw_value: b.min_raw_value,
            max_raw_value: b.max_raw_value,
            lower_limit: b.lower_limit,
            upper_limit: b.upper_limit,
            lower_ext_limit: b.lower_ext_limit,
            upper_ext_limit: b.upper_ext_limit,
        }
    }
}

impl From<Result<ChannelBlock, Refusal>> for Mf4ChannelReply {
    ghost from_gives = { λ read reply. reply ≡ channel_c (channel_block_reply read) };

    fn from(read: Result<ChannelBlock, Refusal>) -> Mf4ChannelReply {
        match read {
            Ok(block) => Mf4ChannelReply {
                reply: 0,
                told: 0,
                block: block.into(),
            },
            Err(why) => Mf4ChannelReply {
                reply: why.number(),
                told: why.told(),
                ..Mf4ChannelReply::default()
            },
        }
    }
}

impl From<Mf4ChannelBlock> for ChannelBlock {
    ghost from_gives = { λ given block. channel_block_meant block ≡ block_given given };

    fn from(given: Mf4ChannelBlock) -> ChannelBlock {
        let channel = Channel::from(given.channel);
        ChannelBlock {
            header: given.header.into(),
            next_ch_addr: given.next_ch_addr,
            component_addr: given.component_addr,
            name_addr: given.name_addr,
            source_addr: given.source_addr,
            conversion_addr: given.conversion_addr,
            data: channel.data,
            unit_addr: given.unit_addr,
            comment_addr: given.comment_addr,
            more_links_at: given.more_links_at,
            more_links: given.more_link_count,
            channel_type: channel.channel_type,
            sync_type: given.sync_type,
            data_type: channel.data_type,
            bit_offset: channel.bit_offset,
            byte_offset: channel.byte_offset,
            bit_count: channel.bit_count,
            flags: channel.flags,
            pos_invalidation_bit: channel.pos_invalidation_bit,
            precision: given.precision,
            reserved1: given.reserved1,
            attachment_nr: given.attachment_count,
            min_raw_value: given.min_raw_value,
            max_raw_value: given.max_raw_value,
            lower_limit: given.lower_limit,
            upper_limit: given.upper_limit,
            lower_ext_limit: given.lower_ext_limit,
            upper_ext_limit: given.upper_ext_limit,
        }
    }
}
