// Texts as UTF-8.
use crate::answers::{FILL, output, reply};
use crate::line_words::Words;
use mf4::{Mf4TextReply, mf4_text_latin1, mf4_text_utf8, mf4_text_utf16_be, mf4_text_utf16_le};

// By the code of the text's type
fn written(code: u8, text: &[u8], out: &mut [u8]) -> Option<Mf4TextReply> {
    match code {
        6 => Some(mf4_text_latin1(text, out)),
        7 => Some(mf4_text_utf8(text, out)),
        8 => Some(mf4_text_utf16_le(text, out)),
        9 => Some(mf4_text_utf16_be(text, out)),
        _ => None,
    }
}

fn text_due(words: &mut Words, out: &[u8]) -> Option<Mf4TextReply> {
    let answer = reply(words)?;
    Some(Mf4TextReply {
        reply: answer.reply,
        told: answer.told,
        damaged: if answer.reply == 0 { words.byte()? } else { 0 },
        count: output(words, answer.reply, out)?,
    })
}

pub(crate) fn write_text(words: &mut Words) -> Option<()> {
    let mut space = [0u8; 512];
    let mut out = [FILL; 512];
    let code = words.byte()?;
    let text = words.bytes(&mut space)?;
    let given = written(code, text, words.room(&mut out)?)?;
    words.sign(b'=')?;
    (given == text_due(words, &out)?).then_some(())
}
