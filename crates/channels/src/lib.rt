// The channel block, and the description that it gives.
#![tactic(auto)]

mod channel_block;

pub use channel_block::ChannelBlock;
