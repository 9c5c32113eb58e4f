// Numbers written into a record.
use crate::answers::{FILL, left, reply};
use crate::field_reads::channel;
use crate::line_words::Words;
use mf4::{Mf4Number, mf4_write_value};

// The record stands at the front of a buffer, so that a byte written behind it shows
pub(crate) fn write_value(words: &mut Words) -> Option<()> {
    let mut out = [FILL; 512];
    let record = words.bytes(&mut out)?;
    let id_size = words.number()?;
    let channel = channel(words)?;
    let value = Mf4Number {
        kind: words.small()?,
        number: words.number()?,
    };
    words.sign(b'=')?;
    let given = mf4_write_value(id_size, channel, value, record);
    if given != reply(words)? {
        return None;
    }
    left(words, &out)?;
    Some(())
}
