// The reply of a call that answers nothing but that it is done.
ghost use Rattle.std.specs.Prelude.{◌≡◌};
ghost use Rattle.replies.specs.Replies.{done_c, done_reply};

use refusals::Refusal;

#[repr(C)]
#[derive(Clone, Copy, Debug, Default, PartialEq, Eq)]
pub struct Mf4DoneReply {
    pub reply: u32,
    pub told: u64,
}

impl From<Result<(), Refusal>> for Mf4DoneReply {
    ghost from_gives = { λ done reply. reply ≡ done_c (done_reply done) };

    fn from(done: Result<(), Refusal>) -> Mf4DoneReply {
        match done {
            Ok(()) => Mf4DoneReply { reply: 0, told: 0 },
            Err(why) => Mf4DoneReply {
                reply: why.number(),
                told: why.told(),
            },
        }
    }
}
