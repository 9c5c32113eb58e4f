// Texts, and flags.
ghost use Rattle.std.specs.Prelude.{◌≡◌};
ghost use Rattle.text.specs.Meaning.{text_reply};
ghost use Rattle.replies.specs.Replies.{flag_c, text_c};

use refusals::Refusal;
use text::TextWritten;

#[repr(C)]
#[derive(Clone, Copy, Debug, Default, PartialEq, Eq)]
pub struct Mf4TextReply {
    pub reply: u32,
    pub told: u64,
    pub count: u64,
    pub damaged: u8,
}

// C99 has no bool that every compiler passes alike
pub fn flag(set: bool) -> u8
    ensures { result ≡ flag_c set }
{
    u8::from(set)
}

impl From<Result<TextWritten, Refusal>> for Mf4TextReply {
    ghost from_gives = { λ write reply. reply ≡ text_c (text_reply write) };

    fn from(write: Result<TextWritten, Refusal>) -> Mf4TextReply {
        match write {
            Ok(TextWritten { count, damaged }) => Mf4TextReply {
                reply: 0,
                told: 0,
                count,
                damaged: flag(damaged),
            },
            Err(why) => Mf4TextReply {
                reply: why.number(),
                told: why.told(),
                ..Mf4TextReply::default()
            },
        }
    }
}
