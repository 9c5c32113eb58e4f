// The first overlap of a list of channels.
ghost use Rattle.std.specs.Prelude.{◌≡◌};
ghost use Rattle.overlaps.specs.Meaning.{overlap_reply};
ghost use Rattle.replies.specs.Overlaps.{overlap_c};

use overlaps::Pair;
use refusals::Refusal;

// `found` tells a pair from none, since 0 is a place.
#[repr(C)]
#[derive(Clone, Copy, Debug, Default, PartialEq, Eq)]
pub struct Mf4OverlapReply {
    pub reply: u32,
    pub told: u64,
    pub found: u8,
    pub first: u64,
    pub second: u64,
}

impl From<Result<Option<Pair>, Refusal>> for Mf4OverlapReply {
    ghost from_gives = { λ read reply. reply ≡ overlap_c (overlap_reply read) };

    fn from(read: Result<Option<Pair>, Refusal>) -> Mf4OverlapReply {
        match read {
            Ok(Some(Pair { first, second })) => Mf4OverlapReply {
                reply: 0,
                told: 0,
                found: 1,
                first,
                second,
            },
            Ok(None) => Mf4OverlapReply::default(),
            Err(why) => Mf4OverlapReply {
                reply: why.number(),
                told: why.told(),
                ..Mf4OverlapReply::default()
            },
        }
    }
}
