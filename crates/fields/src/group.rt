// What is known of the group that a channel belongs to.

#[derive(Clone, Copy, Debug, PartialEq, Eq)]
pub struct Group {
    // the bytes of the id in front of each record
    pub record_id_size: usize,
    // the bytes of the channels' data behind it
    pub data_bytes: u32,
    // and at the record's end the bytes of the invalidation bits
    pub invalidation_bytes: u32,
}
