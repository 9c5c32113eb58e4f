// Values of payloads.
ghost use Rattle.std.specs.Prelude.{◌≡◌};
ghost use Rattle.payloads.specs.Meaning.{payload_reply};
ghost use Rattle.replies.specs.Values.{payload_c};

use crate::texts::flag;
use crate::values::Shown;
use payloads::DecodedPayload;
use refusals::Refusal;

#[repr(C)]
#[derive(Clone, Copy, Debug, Default, PartialEq, Eq)]
pub struct Mf4PayloadReply {
    pub reply: u32,
    pub told: u64,
    pub kind: u32,
    pub is_valid: u8,
    pub number: u64,
    pub at: u64,
    pub length: u64,
    pub payload_length: u64,
}

impl From<Result<DecodedPayload, Refusal>> for Mf4PayloadReply {
    ghost from_gives = { λ read reply. reply ≡ payload_c (payload_reply read) };

    fn from(read: Result<DecodedPayload, Refusal>) -> Mf4PayloadReply {
        match read {
            Ok(payload) => {
                let told = Shown::from(payload.value);
                Mf4PayloadReply {
                    reply: 0,
                    told: 0,
                    kind: told.kind,
                    is_valid: flag(payload.is_valid),
                    number: told.number,
                    at: told.at,
                    length: told.length,
                    payload_length: payload.length,
                }
            }
            Err(why) => Mf4PayloadReply {
                reply: why.number(),
                told: why.told(),
                ..Mf4PayloadReply::default()
            },
        }
    }
}
