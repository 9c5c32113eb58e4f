// How many bytes a call wrote.
ghost use Rattle.std.specs.Prelude.{◌≡◌};
ghost use Rattle.blocks.specs.Meaning.{written_reply};
ghost use Rattle.block_replies.specs.Replies.{written_c};

use refusals::Refusal;

#[repr(C)]
#[derive(Clone, Copy, Debug, Default, PartialEq, Eq)]
pub struct Mf4WrittenReply {
    // 0: the bytes were written; else the refusal's number
    pub reply: u32,
    pub told: u64,
    pub count: u64,
}

impl From<Result<u64, Refusal>> for Mf4WrittenReply {
    ghost from_gives = { λ written reply. reply ≡ written_c (written_reply written) };

    fn from(written: Result<u64, Refusal>) -> Mf4WrittenReply {
        match written {
            Ok(count) => Mf4WrittenReply {
                reply: 0,
                told: 0,
                count,
            },
            Err(why) => Mf4WrittenReply {
                reply: why.number(),
                told: why.told(),
                count: 0,
            },
        }
    }
}
