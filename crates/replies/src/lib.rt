// What C is told of values, texts, records, tables, overlaps and reports, and what it gives of them: as `block_replies` has it of blocks.
#![tactic(auto)]

mod done;
mod fetches;
mod group;
mod overlap;
mod payload;
mod reports;
mod stored;
mod texts;
mod valid_values;
mod validity;
mod values;

pub use done::Mf4DoneReply;
pub use fetches::Mf4LengthReply;
pub use group::Mf4Group;
pub use overlap::Mf4OverlapReply;
pub use payload::Mf4PayloadReply;
pub use reports::{Mf4Point, Mf4ReportReply};
pub use stored::Mf4Number;
pub use texts::{Mf4TextReply, flag};
pub use valid_values::Mf4ValidValueReply;
pub use validity::Mf4ValidityReply;
pub use values::Mf4ValueReply;
