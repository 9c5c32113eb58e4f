// The kinds of lines, in the order in which they are told.
use crate::chains::{Asked, fetched};
use crate::channel_blocks::{read_channel, write_channel};
use crate::field_reads::{
    check_bounded_validity, check_validity, decode_both, decode_bounded_both, decode_double,
    decode_value,
};
use crate::line_words::Words;
use crate::list_blocks::{
    read_header, read_list, write_header, write_list_equal, write_list_variable,
};
use crate::payload_reads::record_payload;
use crate::texts::write_text;
use crate::types::type_by_code;
use crate::written::write_value;

#[derive(Clone, Copy, Debug, PartialEq, Eq)]
pub(crate) enum Kind {
    Type,
    HeaderRead,
    HeaderWrite,
    ListRead,
    ListWriteEqual,
    ListWriteVariable,
    Value,
    Validity,
    Both,
    Double,
    Text,
    Record,
    RecordValue,
    ChannelRead,
    ChannelWrite,
    RecordPayload,
    Write,
    BoundedValidity,
    BoundedBoth,
    BoundedRecordValue,
    // a line whose first word is none of the other names
    Unknown,
}

impl Kind {
    pub(crate) const COUNT: usize = 21;

    pub(crate) const ALL: [Kind; Kind::COUNT] = [
        Kind::Type,
        Kind::HeaderRead,
        Kind::HeaderWrite,
        Kind::ListRead,
        Kind::ListWriteEqual,
        Kind::ListWriteVariable,
        Kind::Value,
        Kind::Validity,
        Kind::Both,
        Kind::Double,
        Kind::Text,
        Kind::Record,
        Kind::RecordValue,
        Kind::ChannelRead,
        Kind::ChannelWrite,
        Kind::RecordPayload,
        Kind::Write,
        Kind::BoundedValidity,
        Kind::BoundedBoth,
        Kind::BoundedRecordValue,
        Kind::Unknown,
    ];

    pub(crate) fn name(self) -> &'static str {
        match self {
            Kind::Type => "type",
            Kind::HeaderRead => "header-read",
            Kind::HeaderWrite => "header-write",
            Kind::ListRead => "list-read",
            Kind::ListWriteEqual => "list-write-equal",
            Kind::ListWriteVariable => "list-write-variable",
            Kind::Value => "value",
            Kind::Validity => "validity",
            Kind::Both => "both",
            Kind::Double => "double",
            Kind::Text => "text",
            Kind::Record => "record",
            Kind::RecordValue => "record-value",
            Kind::ChannelRead => "channel-read",
            Kind::ChannelWrite => "channel-write",
            Kind::RecordPayload => "record-payload",
            Kind::Write => "write",
            Kind::BoundedValidity => "bounded-validity",
            Kind::BoundedBoth => "bounded-both",
            Kind::BoundedRecordValue => "bounded-record-value",
            Kind::Unknown => "unknown",
        }
    }

    // By the line's first word; a name with no word behind it is none
    pub(crate) fn of(words: &mut Words) -> Kind {
        let Some(name) = words.word() else {
            return Kind::Unknown;
        };
        if words.is_done() {
            return Kind::Unknown;
        }
        for kind in Kind::ALL {
            if kind.name().as_bytes() == name {
                return kind;
            }
        }
        Kind::Unknown
    }

    // Whether the library answers as the words say
    pub(crate) fn replay(self, words: &mut Words) -> Option<()> {
        match self {
            Kind::Type => type_by_code(words),
            Kind::HeaderRead => read_header(words),
            Kind::HeaderWrite => write_header(words),
            Kind::ListRead => read_list(words),
            Kind::ListWriteEqual => write_list_equal(words),
            Kind::ListWriteVariable => write_list_variable(words),
            Kind::Value => decode_value(words),
            Kind::Validity => check_validity(words),
            Kind::Both => decode_both(words),
            Kind::Double => decode_double(words),
            Kind::Text => write_text(words),
            Kind::Record => fetched(words, Asked::Record),
            Kind::RecordValue => fetched(words, Asked::Value),
            Kind::ChannelRead => read_channel(words),
            Kind::ChannelWrite => write_channel(words),
            Kind::RecordPayload => record_payload(words),
            Kind::Write => write_value(words),
            Kind::BoundedValidity => check_bounded_validity(words),
            Kind::BoundedBoth => decode_bounded_both(words),
            Kind::BoundedRecordValue => fetched(words, Asked::BoundedValue),
            Kind::Unknown => None,
        }
    }
}
