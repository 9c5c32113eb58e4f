// Values, validity and doubles of channels.
use crate::answers::{Value, field_reply, reply};
use crate::line_words::Words;
use mf4::{
    Mf4Channel, Mf4DoneReply, Mf4Group, Mf4ValidValueReply, Mf4ValidityReply, Mf4ValueReply,
    mf4_check_validity, mf4_check_validity_unbounded, mf4_decode_double_bits,
    mf4_decode_valid_value, mf4_decode_valid_value_unbounded, mf4_decode_value,
};

// A field's words behind its record
#[derive(Clone, Copy)]
pub(crate) struct Field {
    pub group: Mf4Group,
    pub channel: Mf4Channel,
}

pub(crate) fn channel(words: &mut Words) -> Option<Mf4Channel> {
    Some(Mf4Channel {
        data_type: words.byte()?,
        channel_type: words.byte()?,
        bit_offset: words.byte()?,
        byte_offset: words.small()?,
        bit_count: words.small()?,
        flags: words.small()?,
        pos_invalidation_bit: words.small()?,
        data_addr: words.number()?,
    })
}

// Only a bounded kind has the word for the invalidation bytes: in any other these have no end, and how many there are plays no
// part
fn group(words: &mut Words, is_bounded: bool) -> Option<Mf4Group> {
    Some(Mf4Group {
        record_id_size: words.number()?,
        data_bytes: words.small()?,
        invalidation_bytes: if is_bounded { words.small()? } else { 0 },
    })
}

impl Field {
    // The field, and the sign that ends the question
    pub(crate) fn of(words: &mut Words, is_bounded: bool) -> Option<Field> {
        let field = Field {
            group: group(words, is_bounded)?,
            channel: channel(words)?,
        };
        words.sign(b'=')?;
        Some(field)
    }
}

// What stands behind the reply; beside a refusal every other field is 0
fn judged(words: &mut Words, answer: Mf4DoneReply) -> Option<Mf4ValidValueReply> {
    if answer.reply != 0 {
        return Some(Mf4ValidValueReply {
            reply: answer.reply,
            told: answer.told,
            ..Mf4ValidValueReply::default()
        });
    }
    let value = Value::of(words)?;
    Some(Mf4ValidValueReply {
        reply: answer.reply,
        told: answer.told,
        kind: value.kind,
        is_valid: words.byte()?,
        number: value.number,
        at: value.at,
        length: value.length,
    })
}

pub(crate) fn same_valid_value(words: &mut Words, given: Mf4ValidValueReply) -> Option<()> {
    let answer = reply(words)?;
    (given == judged(words, answer)?).then_some(())
}

pub(crate) fn decode_value(words: &mut Words) -> Option<()> {
    let mut space = [0u8; 512];
    let record = words.bytes(&mut space)?;
    let asked = Field::of(words, false)?;
    let given = mf4_decode_value(record, asked.group.record_id_size, asked.channel);
    let told = Mf4DoneReply {
        reply: given.reply,
        told: given.told,
    };
    let answer = field_reply(words, told)?;
    let value = if answer.reply == 0 {
        Value::of(words)?
    } else {
        Value::default()
    };
    let due = Mf4ValueReply {
        reply: answer.reply,
        told: answer.told,
        kind: value.kind,
        number: value.number,
        at: value.at,
        length: value.length,
    };
    (given == due).then_some(())
}

pub(crate) fn check_validity(words: &mut Words) -> Option<()> {
    let mut space = [0u8; 512];
    let record = words.bytes(&mut space)?;
    let asked = Field::of(words, false)?;
    let given = mf4_check_validity_unbounded(record, asked.group, asked.channel);
    (given == words.byte()?).then_some(())
}

// The kind that the crate answers too
pub(crate) fn decode_both(words: &mut Words) -> Option<()> {
    let mut space = [0u8; 512];
    let record = words.bytes(&mut space)?;
    let asked = Field::of(words, false)?;
    let given = mf4_decode_valid_value_unbounded(record, asked.group, asked.channel);
    let told = Mf4DoneReply {
        reply: given.reply,
        told: given.told,
    };
    let answer = field_reply(words, told)?;
    (given == judged(words, answer)?).then_some(())
}

pub(crate) fn decode_double(words: &mut Words) -> Option<()> {
    let mut space = [0u8; 512];
    let record = words.bytes(&mut space)?;
    let asked = Field::of(words, false)?;
    let given = mf4_decode_double_bits(record, asked.group.record_id_size, asked.channel);
    (given == words.number()?).then_some(())
}

pub(crate) fn check_bounded_validity(words: &mut Words) -> Option<()> {
    let mut space = [0u8; 512];
    let record = words.bytes(&mut space)?;
    let asked = Field::of(words, true)?;
    let given = mf4_check_validity(record, asked.group, asked.channel);
    let answer = reply(words)?;
    let due = Mf4ValidityReply {
        reply: answer.reply,
        told: answer.told,
        is_valid: if answer.reply == 0 { words.byte()? } else { 0 },
    };
    (given == due).then_some(())
}

pub(crate) fn decode_bounded_both(words: &mut Words) -> Option<()> {
    let mut space = [0u8; 512];
    let record = words.bytes(&mut space)?;
    let asked = Field::of(words, true)?;
    let given = mf4_decode_valid_value(record, asked.group, asked.channel);
    same_valid_value(words, given)
}
