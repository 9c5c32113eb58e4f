// The first pair of channels that share a bit.
#[derive(Clone, Copy, Debug, PartialEq, Eq)]
pub struct Pair {
    // their places in the list, from 0
    pub first: u64,
    pub second: u64,
}
