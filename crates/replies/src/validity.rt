// Validity alone.
ghost use Rattle.std.specs.Prelude.{◌≡◌};
ghost use Rattle.fields.specs.Meaning.{validity_reply};
ghost use Rattle.replies.specs.Values.{validity_c};

use crate::texts::flag;
use refusals::Refusal;

#[repr(C)]
#[derive(Clone, Copy, Debug, Default, PartialEq, Eq)]
pub struct Mf4ValidityReply {
    pub reply: u32,
    pub told: u64,
    pub is_valid: u8,
}

impl From<Result<bool, Refusal>> for Mf4ValidityReply {
    ghost from_gives = { λ read reply. reply ≡ validity_c (validity_reply read) };

    fn from(read: Result<bool, Refusal>) -> Mf4ValidityReply {
        match read {
            Ok(valid) => Mf4ValidityReply {
                reply: 0,
                told: 0,
                is_valid: flag(valid),
            },
            Err(why) => Mf4ValidityReply {
                reply: why.number(),
                told: why.told(),
                is_valid: 0,
            },
        }
    }
}
