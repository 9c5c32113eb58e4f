// Texts in four encodings, written as UTF-8 into a lent buffer.
#![tactic(auto)]

mod answer;
mod character;
mod damaged;
mod encode;
mod latin1;
mod unchanged;
mod utf16;
mod utf8;
mod write;

pub use answer::TextWritten;
pub use write::write_text;
