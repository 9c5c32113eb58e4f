// Replays stored answers through the library and says which are different: none should be.
//
// data/sample.txt holds answers of the Rust crate mf4-rs 3.8.0, as the comparison program writes them by
// `compare --sample 3000 FILE`; compare/src/main.rs describes the lines. data/vectors.txt holds answers from elsewhere in
// the same lines: doubles by IEEE 754, texts by the Unicode standard, and the worked examples of the rules. It has
// seven kinds more, for records through a chain of data lists, payloads through a second one, numbers written, and validity
// where the group's invalidation bytes have an end:
//
//     record FILE START NUMBER SIZE ROOM = REPLY TOLD LEFT
//     record-value FILE START NUMBER SIZE ROOM FIELD = REPLY TOLD [VALUE VALID] LEFT
//     record-payload FILE START NUMBER SIZE ROOM ROOM FIELD = REPLY TOLD [VALUE VALID COUNT] LEFT LEFT
//     write RECORD ID_SIZE CHANNEL KIND NUMBER = REPLY TOLD LEFT
//     bounded-validity RECORD FIELD = REPLY TOLD [VALID]
//     bounded-both RECORD FIELD = REPLY TOLD [VALUE VALID]
//     bounded-record-value FILE START NUMBER SIZE ROOM FIELD = REPLY TOLD [VALUE VALID] LEFT
//
// FILE is the whole file in bytes, and LEFT the bytes that the call left in its buffer; of the two buffers of a payload the
// record's stands first, and COUNT is how many bytes the payload has. The FIELD begins with ID_SIZE, as its record is the one
// fetched or stands in front; in the bounded kinds its group has three numbers, INVALIDATION_BYTES behind DATA_BYTES. KIND and
// NUMBER are those of mf4_number, and LEFT is then the record afterwards.
//
// The kinds `validity`, `both` and `record-value` are for the reading without an end, which is the crate's: they go to the
// calls whose names end in _unbounded, the last of them behind mf4_read_record. `record-payload` has that reading too.
//
// A line that is empty or begins with `#` is a remark. Every other line counts: one of an unknown kind, with a word too many
// or too few or with a word that cannot be read is a different one. data/wrong.txt holds nothing but such lines, each wrong in
// one word, so that a program that overlooks something is found out.
//
// There is no kind for mf4_first_overlap: mf4-rs has no such call, so no answer of it is stored.
#![tactic(auto)]

mod answers;
mod chains;
mod channel_blocks;
mod field_reads;
mod kind;
mod line_words;
mod list_blocks;
mod payload_reads;
mod run;
mod texts;
mod types;
mod written;

use run::Run;
use std::io;

fn main(rt: HostRuntime) -> io::Result<()> {
    let mut right = Run::new();
    right.take_file(&rt, "sample.txt")?;
    right.take_file(&rt, "vectors.txt")?;
    right.report(&rt)?;
    // wrong on purpose: all of them must be told
    let mut wrong = Run::new();
    wrong.take_file(&rt, "wrong.txt")?;
    wrong.report(&rt)
}
