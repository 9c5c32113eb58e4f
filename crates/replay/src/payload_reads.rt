// Payloads through a second chain.
use crate::answers::{FILL, Value, left, reply};
use crate::chains::Fetch;
use crate::field_reads::Field;
use crate::line_words::Words;
use mf4::{Mf4PayloadReply, mf4_record_payload};

// Beside a refusal every other field is 0
fn payload_due(words: &mut Words) -> Option<Mf4PayloadReply> {
    let answer = reply(words)?;
    if answer.reply != 0 {
        return Some(Mf4PayloadReply {
            reply: answer.reply,
            told: answer.told,
            ..Mf4PayloadReply::default()
        });
    }
    let value = Value::of(words)?;
    Some(Mf4PayloadReply {
        reply: answer.reply,
        told: answer.told,
        kind: value.kind,
        is_valid: words.byte()?,
        number: value.number,
        at: value.at,
        length: value.length,
        payload_length: words.number()?,
    })
}

pub(crate) fn record_payload(words: &mut Words) -> Option<()> {
    let mut space = [0u8; 512];
    let mut out = [FILL; 512];
    let mut kept = [FILL; 512];
    let by = Fetch::of(words, &mut space)?;
    let record = words.room(&mut out)?;
    let payload = words.room(&mut kept)?;
    let asked = Field::of(words, false)?;
    let given = mf4_record_payload(
        by.file,
        by.start,
        by.number,
        by.size,
        asked.group,
        asked.channel,
        record,
        payload,
    );
    if given != payload_due(words)? {
        return None;
    }
    left(words, &out)?;
    left(words, &kept)?;
    Some(())
}
