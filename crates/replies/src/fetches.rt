// Lengths of chains.
ghost use Rattle.std.specs.Prelude.{◌≡◌};
ghost use Rattle.chain.specs.Meaning.{chain_reply};
ghost use Rattle.replies.specs.Values.{length_c};

use places::DataPosition;
use refusals::Refusal;

#[repr(C)]
#[derive(Clone, Copy, Debug, Default, PartialEq, Eq)]
pub struct Mf4LengthReply {
    pub reply: u32,
    pub told: u64,
    pub length: u64,
}

impl From<Result<DataPosition, Refusal>> for Mf4LengthReply {
    ghost from_gives = { λ read reply. reply ≡ length_c (chain_reply read) };

    fn from(read: Result<DataPosition, Refusal>) -> Mf4LengthReply {
        match read {
            Ok(total) => Mf4LengthReply {
                reply: 0,
                told: 0,
                length: total.0,
            },
            Err(why) => Mf4LengthReply {
                reply: why.number(),
                told: why.told(),
                length: 0,
            },
        }
    }
}
