// Data types, by their codes.
use crate::line_words::Words;
use mf4::{mf4_default_bits, mf4_type_code};

pub(crate) fn type_by_code(words: &mut Words) -> Option<()> {
    let code = words.byte()?;
    words.sign(b'=')?;
    let is_same = mf4_type_code(code) == words.byte()? && mf4_default_bits(code) == words.small()?;
    is_same.then_some(())
}
