// Records through a chain of data lists, each fetched twice: by a walk along the chain, and by a table that is opened from it.
use crate::answers::{FILL, left, reply};
use crate::field_reads::{Field, same_valid_value};
use crate::line_words::Words;
use mf4::{
    Mf4DoneReply, Mf4ValidValueReply, mf4_decode_valid_value_unbounded, mf4_open_table,
    mf4_read_record, mf4_record_value, mf4_table_record, mf4_table_value,
};

// What a fetch is asked
#[derive(Clone, Copy)]
pub(crate) struct Fetch<'a> {
    pub file: &'a [u8],
    pub start: u64,
    pub number: u64,
    pub size: u64,
}

impl<'a> Fetch<'a> {
    pub(crate) fn of(words: &mut Words, space: &'a mut [u8]) -> Option<Fetch<'a>> {
        Some(Fetch {
            file: words.bytes(space)?,
            start: words.number()?,
            number: words.number()?,
            size: words.number()?,
        })
    }

    // None where opening refuses, or lists nothing: the table is one of zeros then
    fn opened(&self) -> Option<[u64; 1026]> {
        let mut table = [0u64; 1026];
        mf4_open_table(self.file, self.start, &mut table);
        (table[0] != 0).then_some(table)
    }

    // By the table, if there is one, else by the walk
    fn record(&self, table: Option<&[u64; 1026]>, out: &mut [u8]) -> Mf4DoneReply {
        match table {
            Some(table) => mf4_table_record(self.file, table, self.number, self.size, out),
            None => mf4_read_record(self.file, self.start, self.number, self.size, out),
        }
    }

    fn value(
        &self,
        table: Option<&[u64; 1026]>,
        asked: Field,
        out: &mut [u8],
    ) -> Mf4ValidValueReply {
        let Fetch {
            file,
            start,
            number,
            size,
        } = *self;
        let Field { group, channel } = asked;
        match table {
            Some(table) => mf4_table_value(file, table, number, size, group, channel, out),
            None => mf4_record_value(file, start, number, size, group, channel, out),
        }
    }
}

// What is asked of the fetched record
#[derive(Clone, Copy)]
pub(crate) enum Asked {
    Record,
    Value,
    BoundedValue,
}

fn same_record(
    words: &mut Words,
    by: Fetch,
    table: Option<&[u64; 1026]>,
    out: &mut [u8],
) -> Option<()> {
    let given = by.record(table, out);
    words.sign(b'=')?;
    (given == reply(words)?).then_some(())
}

// Without a bound the value is read from the fetched record by a call of its own
fn same_value(
    words: &mut Words,
    by: Fetch,
    table: Option<&[u64; 1026]>,
    out: &mut [u8],
) -> Option<()> {
    let asked = Field::of(words, false)?;
    let fetched = by.record(table, out);
    if fetched.reply != 0 {
        return (fetched == reply(words)?).then_some(());
    }
    let record = out.get(..by.size as usize).unwrap_or(b"");
    let given = mf4_decode_valid_value_unbounded(record, asked.group, asked.channel);
    same_valid_value(words, given)
}

fn same_bounded_value(
    words: &mut Words,
    by: Fetch,
    table: Option<&[u64; 1026]>,
    out: &mut [u8],
) -> Option<()> {
    let asked = Field::of(words, true)?;
    let given = by.value(table, asked, out);
    same_valid_value(words, given)
}

fn fetched_by(words: &mut Words, asked: Asked, is_by_table: bool) -> Option<()> {
    let mut space = [0u8; 512];
    let mut out = [FILL; 512];
    let by = Fetch::of(words, &mut space)?;
    let lent = words.room(&mut out)?;
    let opened = if is_by_table { by.opened() } else { None };
    let table = opened.as_ref();
    match asked {
        Asked::Record => same_record(words, by, table, lent)?,
        Asked::Value => same_value(words, by, table, lent)?,
        Asked::BoundedValue => same_bounded_value(words, by, table, lent)?,
    }
    left(words, &out)?;
    Some(())
}

pub(crate) fn fetched(words: &mut Words, asked: Asked) -> Option<()> {
    let mut again = *words;
    fetched_by(words, asked, false)?;
    fetched_by(&mut again, asked, true)?;
    (*words == again).then_some(())
}
