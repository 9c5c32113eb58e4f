// Block headers.
ghost use Rattle.std.specs.Prelude.{◌≡◌};
ghost use Rattle.blocks.specs.Meaning.{header_meant, header_reply};
ghost use Rattle.block_replies.specs.Replies.{header_fields, header_given, header_c};

use blocks::BlockHeader;
use refusals::Refusal;

#[repr(C)]
#[derive(Clone, Copy, Debug, Default, PartialEq, Eq)]
pub struct Mf4Header {
    pub id: u32,
    pub reserved0: u32,
    pub block_len: u64,
    pub link_count: u64,
}

#[repr(C)]
#[derive(Clone, Copy, Debug, Default, PartialEq, Eq)]
pub struct Mf4HeaderReply {
    pub reply: u32,
    pub told: u64,
    pub header: Mf4Header,
}

impl From<BlockHeader> for Mf4Header {
    ghost from_gives = { λ h told. told ≡ header_fields (header_meant h) };

    fn from(h: BlockHeader) -> Mf4Header {
        Mf4Header {
            id: h.id,
            reserved0: h.reserved0,
            block_len: h.block_len,
            link_count: h.links_nr,
        }
    }
}

impl From<Result<BlockHeader, Refusal>> for Mf4HeaderReply {
    ghost from_gives = { λ read reply. reply ≡ header_c (header_reply read) };

    fn from(read: Result<BlockHeader, Refusal>) -> Mf4HeaderReply {
        match read {
            Ok(header) => Mf4HeaderReply {
                reply: 0,
                told: 0,
                header: header.into(),
            },
            Err(why) => Mf4HeaderReply {
                reply: why.number(),
                told: why.told(),
                ..Mf4HeaderReply::default()
            },
        }
    }
}

impl From<Mf4Header> for BlockHeader {
    ghost from_gives = { λ given header. header_meant header ≡ header_given given };

    fn from(given: Mf4Header) -> BlockHeader {
        BlockHeader {
            id: given.id,
            reserved0: given.reserved0,
            block_len: given.block_len,
            links_nr: given.link_count,
        }
    }
}
