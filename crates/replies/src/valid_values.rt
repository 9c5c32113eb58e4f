// Values with their validity.
ghost use Rattle.std.specs.Prelude.{◌≡◌};
ghost use Rattle.fields.specs.Meaning.{valid_value_reply};
ghost use Rattle.replies.specs.Values.{valid_value_c};

use crate::texts::flag;
use crate::values::Shown;
use fields::DecodedChannelValue;
use refusals::Refusal;

#[repr(C)]
#[derive(Clone, Copy, Debug, Default, PartialEq, Eq)]
pub struct Mf4ValidValueReply {
    pub reply: u32,
    pub told: u64,
    pub kind: u32,
    pub is_valid: u8,
    pub number: u64,
    pub at: u64,
    pub length: u64,
}

impl From<Result<DecodedChannelValue, Refusal>> for Mf4ValidValueReply {
    ghost from_gives = { λ read reply. reply ≡ valid_value_c (valid_value_reply read) };

    fn from(read: Result<DecodedChannelValue, Refusal>) -> Mf4ValidValueReply {
        match read {
            Ok(judged) => {
                let told = Shown::from(judged.value);
                Mf4ValidValueReply {
                    reply: 0,
                    told: 0,
                    kind: told.kind,
                    is_valid: flag(judged.is_valid),
                    number: told.number,
                    at: told.at,
                    length: told.length,
                }
            }
            Err(why) => Mf4ValidValueReply {
                reply: why.number(),
                told: why.told(),
                ..Mf4ValidValueReply::default()
            },
        }
    }
}
