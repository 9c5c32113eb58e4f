// The limits of a chain, by their names in the definitions.

// the bytes of a file
pub const FILE_LIMIT: usize = 1099511627776;

// the lists of a chain
pub const LIST_LIMIT: u64 = 256;

// the fragments of a chain
pub(crate) const FRAGMENT_LIMIT: u64 = 4096;
