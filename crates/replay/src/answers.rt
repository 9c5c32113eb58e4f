// What a line says that the library answers, and what it leaves in a buffer.
use crate::line_words::Words;
use mf4::{Mf4DoneReply, Mf4WrittenReply};

// A lent buffer is full of these, so that a byte written where none should be shows
pub(crate) const FILL: u8 = 0xa5;

// A value, by the fields that every reply with one has
#[derive(Clone, Copy, Default)]
pub(crate) struct Value {
    pub kind: u32,
    pub number: u64,
    pub at: u64,
    pub length: u64,
}

impl Value {
    // A number stands in the first word, a place and a length in both; the word that a kind does not use is 0
    pub(crate) fn of(words: &mut Words) -> Option<Value> {
        let kind = words.small()?;
        let first = words.number()?;
        let second = words.number()?;
        match kind {
            1..=3 if second == 0 => Some(Value {
                kind,
                number: first,
                ..Value::default()
            }),
            4..=7 => Some(Value {
                kind,
                at: first,
                length: second,
                ..Value::default()
            }),
            _ if first == 0 && second == 0 => Some(Value {
                kind,
                ..Value::default()
            }),
            _ => None,
        }
    }
}

pub(crate) fn reply(words: &mut Words) -> Option<Mf4DoneReply> {
    Some(Mf4DoneReply {
        reply: words.small()?,
        told: words.number()?,
    })
}

// The crate tells no cause where it has no value: its answer is then `-`, and any cause is right
pub(crate) fn field_reply(words: &mut Words, given: Mf4DoneReply) -> Option<Mf4DoneReply> {
    if words.has_sign(b'-') {
        return matches!(given.reply, 18..=22).then_some(given);
    }
    reply(words)
}

// Whether a buffer holds the bytes that are due, and none written behind them
fn holds_only(out: &[u8], due: &[u8]) -> bool {
    match out.strip_prefix(due) {
        Some(rest) => rest.iter().all(|byte| *byte == FILL),
        None => false,
    }
}

// How many bytes a call left in the buffer, if they are those of the line
pub(crate) fn left(words: &mut Words, out: &[u8]) -> Option<u64> {
    let mut space = [0u8; 512];
    let due = words.bytes(&mut space)?;
    holds_only(out, due).then_some(due.len() as u64)
}

// The same of a call that a refusal keeps from writing: the line ends there
pub(crate) fn output(words: &mut Words, reply: u32, out: &[u8]) -> Option<u64> {
    if reply == 0 {
        return left(words, out);
    }
    holds_only(out, b"").then_some(0)
}

pub(crate) fn written(words: &mut Words, out: &[u8]) -> Option<Mf4WrittenReply> {
    let answer = reply(words)?;
    Some(Mf4WrittenReply {
        reply: answer.reply,
        told: answer.told,
        count: output(words, answer.reply, out)?,
    })
}
