// Data lists.
ghost use Rattle.std.specs.Prelude.{◌≡◌};
ghost use Rattle.blocks.specs.Meaning.{list_reply};
ghost use Rattle.block_replies.specs.Replies.{list_c};

use crate::header::Mf4Header;
use blocks::DataListBlock;
use refusals::Refusal;

#[repr(C)]
#[derive(Clone, Copy, Debug, Default, PartialEq, Eq)]
pub struct Mf4ListReply {
    pub reply: u32,
    pub told: u64,
    pub header: Mf4Header,
    pub next_addr: u64,
    pub data_links_at: u64,
    pub data_link_count: u64,
    pub flags: u8,
    pub reserved1: u32,
    pub data_block_count: u32,
    pub rest_at: u64,
    pub rest_count: u64,
}

impl From<Result<DataListBlock, Refusal>> for Mf4ListReply {
    ghost from_gives = { λ read reply. reply ≡ list_c (list_reply read) };

    fn from(read: Result<DataListBlock, Refusal>) -> Mf4ListReply {
        match read {
            Ok(d) => Mf4ListReply {
                reply: 0,
                told: 0,
                header: d.header.into(),
                next_addr: d.next,
                data_links_at: d.links_at,
                data_link_count: d.links,
                flags: d.flags,
                reserved1: d.reserved1,
                data_block_count: d.data_block_nr,
                rest_at: d.rest_at,
                rest_count: d.rest,
            },
            Err(why) => Mf4ListReply {
                reply: why.number(),
                told: why.told(),
                ..Mf4ListReply::default()
            },
        }
    }
}
