// A number that C gives to be written.
ghost use Rattle.std.specs.Prelude.{◌≡◌};
ghost use Rattle.encoder.specs.Meaning.{given_meant};
ghost use Rattle.replies.specs.Stored.{number_given};

use encoder::NumberGiven;

// The kind and the number as Mf4ValueReply has them
#[repr(C)]
#[derive(Clone, Copy, Debug, Default, PartialEq, Eq)]
pub struct Mf4Number {
    pub kind: u32,
    pub number: u64,
}

impl From<Mf4Number> for NumberGiven {
    ghost from_gives = { λ given number. given_meant number ≡ number_given given };

    fn from(given: Mf4Number) -> NumberGiven {
        match given.kind {
            1 => NumberGiven::Unsigned(given.number),
            2 => NumberGiven::Signed(given.number.cast_signed()),
            3 => NumberGiven::Double(given.number),
            _ => NumberGiven::Other,
        }
    }
}
