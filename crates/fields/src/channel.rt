// What is known of a channel.
ghost use Rattle.std.specs.Prelude.{◌≡◌};
ghost use Rattle.definitions.specs.Channel.{variable_length};
ghost use Rattle.fields.specs.Meaning.{channel_meant};

use data_types::DataType;

// What tells of the field, and then of its validity: a copy of the first part then loads no piece that was stored as two.
#[derive(Clone, Copy, Debug, PartialEq, Eq)]
pub struct Channel {
    pub data_type: DataType,
    pub channel_type: u8,
    pub bit_offset: u8,
    pub byte_offset: u32,
    pub bit_count: u32,
    pub data: u64,
    pub flags: u32,
    pub pos_invalidation_bit: u32,
}

impl Channel {
    // The slice given is then the payload, and no record.
    pub fn is_variable_length(self) -> bool
        ensures { result ≡ variable_length (channel_meant self) }
    {
        self.channel_type == 1 && self.data != 0
    }
}
