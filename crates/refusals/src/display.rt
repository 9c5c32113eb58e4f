// A refusal in words, for people: those that mf4_reply_text of mf4.h has for its number.
ghost use Rattle.std.specs.Prelude.{Some};
ghost use Rattle.refusals.specs.Words.{refusal_words};

use crate::Refusal;
use std::error::Error;
use std::fmt;

impl fmt::Display for Refusal {
    ghost output = { λ r. Some (refusal_words r) };

    fn fmt<W: fmt::Write>(&self, f: &mut fmt::Formatter<W>) -> fmt::Result {
        f.write_str(match self {
            Refusal::TooFewBytes(_) => "the block has too few bytes",
            Refusal::OtherId => "the block has another id",
            Refusal::NoLinks => "the data list has no links",
            Refusal::UnwritableList =>
                "links and offsets differ in number, or there are over 4096 links",
            Refusal::NoRoom(_) => "the output buffer is too small",
            Refusal::FileTooLong => "the file is longer than 2^40 bytes",
            Refusal::TooManyLists => "the chain has over 256 lists",
            Refusal::TooManyFragments => "the chain has over 4096 data blocks",
            Refusal::ListDisagrees => "a list's count or block length disagrees with its links",
            Refusal::NoBlockThere => "a link leads to no block",
            Refusal::BadDataBlock =>
                "a link leads to something else than a whole data block of its kind",
            Refusal::UntrueDeclaration =>
                "a data block is not as its list declares, or a list declares otherwise than the first",
            Refusal::BadRecordSize =>
                "the record size is 0 or over 16384, or the buffer is too short",
            Refusal::NoSuchRecord => "the record is not inside the data",
            Refusal::TooFewLinks => "the channel block has fewer than 8 links",
            Refusal::NoBits => "the description gives the number no bits",
            Refusal::BadBitOffset => "the description's bit offset is over 7",
            Refusal::IntegerTooWide => "the description gives the integer over 64 bits",
            Refusal::FieldOutside(_) =>
                "the field ends outside the record or payload, which has too few bytes",
            Refusal::BadFloatWidth => "the description gives the float neither 32 nor 64 bits",
            Refusal::PayloadOutside => "the payload or its length ends behind the joined data",
            Refusal::DoesNotFit => "the number does not fit the field",
            Refusal::OtherKind =>
                "the number is of another kind than the channel's, or the channel is no fixed number",
            Refusal::TooManyChannels => "the list has over 256 descriptions",
            Refusal::NoFixedNumber(_) => "a description in the list is that of no fixed number",
            Refusal::OtherLength => "the record is not as long as its group says",
            Refusal::BitOutside =>
                "the invalidation bit lies outside the group's invalidation bytes",
            Refusal::TableFull => "the table would have over 512 data blocks",
            Refusal::TableEmpty => "the table has no data block to give up",
            Refusal::BadTable => "the table is damaged, or a data block of it ends behind the file",
            Refusal::NoNumberChannel => "the channel is no fixed number",
            Refusal::NoPosition => "the channel holds no position of a payload",
        })
    }
}

impl Error for Refusal {}
