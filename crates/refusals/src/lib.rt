// The numbered refusals, as one enum that every crate's answers share. 1 and 14 were given once, and are given no more.
#![tactic(auto)]

ghost use Rattle.std.specs.Prelude.{◌≡◌};
ghost use Rattle.refusals.specs.Meaning.{refusal_number, told_of};

mod display;

#[derive(Clone, Copy, Debug, PartialEq, Eq)]
pub enum Refusal {
    // 2, with the bytes that the block needs
    TooFewBytes(u64),
    // 3
    OtherId,
    // 4
    NoLinks,
    // 5
    UnwritableList,
    // 6, with the bytes that the output needs
    NoRoom(u64),
    // 7
    FileTooLong,
    // 8
    TooManyLists,
    // 9
    TooManyFragments,
    // 10
    ListDisagrees,
    // 11
    NoBlockThere,
    // 12
    BadDataBlock,
    // 13
    UntrueDeclaration,
    // 15
    BadRecordSize,
    // 16
    NoSuchRecord,
    // 17
    TooFewLinks,
    // 18
    NoBits,
    // 19
    BadBitOffset,
    // 20
    IntegerTooWide,
    // 21, with the bytes that the slice needs
    FieldOutside(u64),
    // 22
    BadFloatWidth,
    // 23
    PayloadOutside,
    // 24
    DoesNotFit,
    // 25
    OtherKind,
    // 26
    TooManyChannels,
    // 27, with the place of the entry
    NoFixedNumber(u64),
    // 28
    OtherLength,
    // 29
    BitOutside,
    // 30
    TableFull,
    // 31
    TableEmpty,
    // 32
    BadTable,
    // 33
    NoNumberChannel,
    // 35
    NoPosition,
}

impl Refusal {
    pub fn number(self) -> u32
        ensures { result ≡ refusal_number self }
    {
        match self {
            Refusal::TooFewBytes(_) => 2,
            Refusal::OtherId => 3,
            Refusal::NoLinks => 4,
            Refusal::UnwritableList => 5,
            Refusal::NoRoom(_) => 6,
            Refusal::FileTooLong => 7,
            Refusal::TooManyLists => 8,
            Refusal::TooManyFragments => 9,
            Refusal::ListDisagrees => 10,
            Refusal::NoBlockThere => 11,
            Refusal::BadDataBlock => 12,
            Refusal::UntrueDeclaration => 13,
            Refusal::BadRecordSize => 15,
            Refusal::NoSuchRecord => 16,
            Refusal::TooFewLinks => 17,
            Refusal::NoBits => 18,
            Refusal::BadBitOffset => 19,
            Refusal::IntegerTooWide => 20,
            Refusal::FieldOutside(_) => 21,
            Refusal::BadFloatWidth => 22,
            Refusal::PayloadOutside => 23,
            Refusal::DoesNotFit => 24,
            Refusal::OtherKind => 25,
            Refusal::TooManyChannels => 26,
            Refusal::NoFixedNumber(_) => 27,
            Refusal::OtherLength => 28,
            Refusal::BitOutside => 29,
            Refusal::TableFull => 30,
            Refusal::TableEmpty => 31,
            Refusal::BadTable => 32,
            Refusal::NoNumberChannel => 33,
            Refusal::NoPosition => 35,
        }
    }

    // what the refusal tells beside its number, and 0 where it tells nothing
    pub fn told(self) -> u64
        ensures { result ≡ told_of self }
    {
        match self {
            Refusal::TooFewBytes(n)
            | Refusal::NoRoom(n)
            | Refusal::FieldOutside(n)
            | Refusal::NoFixedNumber(n) => n,
            _ => 0,
        }
    }
}
