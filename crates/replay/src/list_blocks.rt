// Block headers and data lists, read and written.
use crate::answers::{FILL, reply, written};
use crate::line_words::Words;
use mf4::{
    Mf4Header, Mf4HeaderReply, Mf4ListReply, mf4_read_header, mf4_read_list, mf4_write_header,
    mf4_write_list_equal, mf4_write_list_variable,
};

pub(crate) fn header(words: &mut Words) -> Option<Mf4Header> {
    Some(Mf4Header {
        id: words.small()?,
        reserved0: words.small()?,
        block_len: words.number()?,
        link_count: words.number()?,
    })
}

// Beside a refusal every other field is 0
fn header_due(words: &mut Words) -> Option<Mf4HeaderReply> {
    let answer = reply(words)?;
    Some(Mf4HeaderReply {
        reply: answer.reply,
        told: answer.told,
        header: if answer.reply == 0 {
            header(words)?
        } else {
            Mf4Header::default()
        },
    })
}

fn list_due(words: &mut Words) -> Option<Mf4ListReply> {
    let answer = reply(words)?;
    if answer.reply != 0 {
        return Some(Mf4ListReply {
            reply: answer.reply,
            told: answer.told,
            ..Mf4ListReply::default()
        });
    }
    Some(Mf4ListReply {
        reply: answer.reply,
        told: answer.told,
        header: header(words)?,
        next_addr: words.number()?,
        data_links_at: words.number()?,
        data_link_count: words.number()?,
        flags: words.byte()?,
        reserved1: words.small()?,
        data_block_count: words.small()?,
        rest_at: words.number()?,
        rest_count: words.number()?,
    })
}

// The three that read a block, and the two that write a struct, are alike but for the call and the struct: as one they would take
// both as closures.
pub(crate) fn read_header(words: &mut Words) -> Option<()> {
    let mut space = [0u8; 512];
    let given = mf4_read_header(words.bytes(&mut space)?);
    words.sign(b'=')?;
    (given == header_due(words)?).then_some(())
}

pub(crate) fn read_list(words: &mut Words) -> Option<()> {
    let mut space = [0u8; 512];
    let given = mf4_read_list(words.bytes(&mut space)?);
    words.sign(b'=')?;
    (given == list_due(words)?).then_some(())
}

pub(crate) fn write_header(words: &mut Words) -> Option<()> {
    let mut out = [FILL; 512];
    let header = header(words)?;
    let given = mf4_write_header(header, words.room(&mut out)?);
    words.sign(b'=')?;
    (given == written(words, &out)?).then_some(())
}

pub(crate) fn write_list_equal(words: &mut Words) -> Option<()> {
    let mut out = [FILL; 512];
    let mut space = [0u64; 64];
    let lent = words.room(&mut out)?;
    let next = words.number()?;
    let length = words.number()?;
    let links = words.numbers(&mut space)?;
    let given = mf4_write_list_equal(next, links, length, lent);
    words.sign(b'=')?;
    (given == written(words, &out)?).then_some(())
}

pub(crate) fn write_list_variable(words: &mut Words) -> Option<()> {
    let mut out = [FILL; 512];
    let mut space = [0u64; 64];
    let mut offset_space = [0u64; 64];
    let lent = words.room(&mut out)?;
    let next = words.number()?;
    let links = words.numbers(&mut space)?;
    let offsets = words.numbers(&mut offset_space)?;
    let given = mf4_write_list_variable(next, links, offsets, lent);
    words.sign(b'=')?;
    (given == written(words, &out)?).then_some(())
}
