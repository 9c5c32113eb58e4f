// The words of a line, one after the other. A reader gives none where the next word is no such word, or where no word is left.

// A line from its next word on, or none behind its last one
#[derive(Clone, Copy, PartialEq, Eq)]
pub(crate) struct Words<'a> {
    rest: Option<&'a [u8]>,
}

fn digit(byte: u8) -> Option<u8> {
    match byte {
        b'0'..=b'9' => Some(byte - b'0'),
        b'a'..=b'f' => Some(byte - b'a' + 10),
        _ => None,
    }
}

fn is_sign(word: &[u8], sign: u8) -> bool {
    matches!(word, [only] if *only == sign)
}

// At most 16 digits, the highest first
fn number(word: &[u8]) -> Option<u64> {
    if word.is_empty() || 16 < word.len() {
        return None;
    }
    let mut number: u64 = 0;
    for byte in word {
        number = number << 4 | digit(*byte)? as u64;
    }
    Some(number)
}

// Two digits a byte, and `-` for no bytes
fn bytes<'b>(word: &[u8], space: &'b mut [u8]) -> Option<&'b mut [u8]> {
    if is_sign(word, b'-') {
        return space.get_mut(..0);
    }
    let (pairs, odd) = word.as_chunks::<2>();
    if pairs.is_empty() || !odd.is_empty() {
        return None;
    }
    let read = space.get_mut(..pairs.len())?;
    for (byte, pair) in read.iter_mut().zip(pairs) {
        *byte = digit(pair[0])? << 4 | digit(pair[1])?;
    }
    Some(read)
}

impl<'a> Words<'a> {
    pub(crate) fn of(line: &'a [u8]) -> Words<'a> {
        Words { rest: Some(line) }
    }

    pub(crate) fn is_done(&self) -> bool {
        self.rest.is_none()
    }

    // What stands before the next blank, or in the rest of the line
    pub(crate) fn word(&mut self) -> Option<&'a [u8]> {
        let rest = self.rest?;
        match rest.iter().position(|byte| *byte == b' ') {
            Some(end) => {
                self.rest = Some(&rest[end + 1..]);
                Some(&rest[..end])
            }
            None => {
                self.rest = None;
                Some(rest)
            }
        }
    }

    pub(crate) fn sign(&mut self, sign: u8) -> Option<()> {
        is_sign(self.word()?, sign).then_some(())
    }

    // The same, where the word may be another, which is then still the next
    pub(crate) fn has_sign(&mut self, sign: u8) -> bool {
        let mut ahead = *self;
        let has = ahead.sign(sign).is_some();
        if has {
            *self = ahead;
        }
        has
    }

    pub(crate) fn number(&mut self) -> Option<u64> {
        number(self.word()?)
    }

    pub(crate) fn small(&mut self) -> Option<u32> {
        u32::try_from(self.number()?).ok()
    }

    pub(crate) fn short(&mut self) -> Option<u16> {
        u16::try_from(self.number()?).ok()
    }

    pub(crate) fn byte(&mut self) -> Option<u8> {
        u8::try_from(self.number()?).ok()
    }

    // The part of a buffer that is lent: so many of its bytes
    pub(crate) fn room<'b>(&mut self, out: &'b mut [u8]) -> Option<&'b mut [u8]> {
        out.get_mut(..self.number()? as usize)
    }

    pub(crate) fn bytes<'b>(&mut self, space: &'b mut [u8]) -> Option<&'b mut [u8]> {
        bytes(self.word()?, space)
    }

    // A count and then that many numbers
    pub(crate) fn numbers<'b>(&mut self, space: &'b mut [u64]) -> Option<&'b [u64]> {
        let read = space.get_mut(..self.number()? as usize)?;
        for number in read.iter_mut() {
            *number = self.number()?;
        }
        Some(read)
    }
}
