// What C is told of blocks, and what it gives of them: each answer of the library as a struct, and each struct as what the library
// takes.
#![tactic(auto)]

mod channel;
mod channel_block;
mod header;
mod list;
mod written;

pub use channel::Mf4Channel;
pub use channel_block::{Mf4ChannelBlock, Mf4ChannelReply};
pub use header::{Mf4Header, Mf4HeaderReply};
pub use list::Mf4ListReply;
pub use written::Mf4WrittenReply;
