// Files taken line by line, and what came of their lines.
use crate::kind::Kind;
use crate::line_words::Words;
use std::io::Read;
use std::rt::Files;
use std::{fs, io};

// Enough to see what is wrong without drowning in it
const MOST_SHOWN: u64 = 20;

// The present line of a file, as far as it was read. One that does not fit, or that the file's end cuts off, is lost. Its bytes are
// kept in place, since no line that is known is longer, and nothing is allocated.
#[derive(Drop)]
struct Line {
    number: u64,
    space: [u8; 1024],
    count: usize,
    is_lost: bool,
}

impl Line {
    fn first() -> Self {
        Line {
            number: 1,
            space: [0; 1024],
            count: 0,
            is_lost: false,
        }
    }

    fn push(&mut self, byte: u8) {
        match self.space.get_mut(self.count) {
            Some(place) => {
                *place = byte;
                self.count += 1;
            }
            None => self.is_lost = true,
        }
    }

    fn bytes(&self) -> Option<&[u8]> {
        if self.is_lost {
            return None;
        }
        self.space.get(..self.count)
    }

    fn go_on(&mut self) {
        self.number = self.number.saturating_add(1);
        self.count = 0;
        self.is_lost = false;
    }
}

#[derive(Clone, Copy)]
pub(crate) struct Run {
    // by kind
    counts: [u64; Kind::COUNT],
    different: u64,
}

// Nothing is said of a line that is empty or a remark
fn is_remark(line: &[u8]) -> bool {
    matches!(line, [] | [b'#', ..])
}

impl Run {
    pub(crate) fn new() -> Self {
        Run {
            counts: [0; Kind::COUNT],
            different: 0,
        }
    }

    fn count(&mut self, kind: Kind) {
        if let Some(count) = self.counts.get_mut(kind as usize) {
            *count = count.saturating_add(1);
        }
    }

    // Whether the library answers as the line says; a lost one is of no known kind
    fn is_same(&mut self, line: Option<&[u8]>) -> bool {
        let Some(line) = line else {
            self.count(Kind::Unknown);
            return false;
        };
        if is_remark(line) {
            return true;
        }
        let mut words = Words::of(line);
        let kind = Kind::of(&mut words);
        self.count(kind);
        kind.replay(&mut words).is_some() && words.is_done()
    }

    fn end_line(&mut self, rt: &impl Print, path: &str, line: &mut Line) -> io::Result<()> {
        if !self.is_same(line.bytes()) {
            self.different = self.different.saturating_add(1);
            if self.different <= MOST_SHOWN {
                let number = line.number;
                println!(rt; "{path}: line {number} is different")?;
            }
        }
        line.go_on();
        Ok(())
    }

    fn take_piece(
        &mut self,
        rt: &impl Print,
        path: &str,
        line: &mut Line,
        piece: &[u8],
    ) -> io::Result<()> {
        for byte in piece {
            if *byte == b'\n' {
                self.end_line(rt, path, line)?;
            } else {
                line.push(*byte);
            }
        }
        Ok(())
    }

    // Reads once, and says whether there may be more
    fn take_some(
        &mut self,
        rt: &impl Print,
        path: &str,
        line: &mut Line,
        file: &mut impl Read,
    ) -> io::Result<bool> {
        let mut piece = [0u8; 65536];
        let count = file.read(&mut piece)?;
        self.take_piece(rt, path, line, &piece[..count])?;
        Ok(0 < count)
    }

    // Nothing says that a file ends, so the turns are of a number that no run uses up
    pub(crate) fn take_file(&mut self, rt: &(impl Files + Print), path: &str) -> io::Result<()> {
        let mut file = fs::open(rt, path)?;
        let mut line = Line::first();
        for _ in 0..u64::MAX {
            if !self.take_some(rt, path, &mut line, &mut file)? {
                break;
            }
        }
        if 0 < line.count {
            line.is_lost = true;
            self.end_line(rt, path, &mut line)?;
        }
        Ok(())
    }

    // Lines of no known kind are told only where there are some
    pub(crate) fn report(&self, rt: &impl Print) -> io::Result<()> {
        let mut total: u64 = 0;
        for (kind, count) in Kind::ALL.iter().zip(self.counts.iter()) {
            if *kind != Kind::Unknown || 0 < *count {
                let name = kind.name();
                println!(rt; "{name} {count}")?;
            }
            total = total.wrapping_add(*count);
        }
        let different = self.different;
        println!(rt; "{total} replayed, {different} different")
    }
}
