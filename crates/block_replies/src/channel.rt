// A channel's description, as C has it.
ghost use Rattle.std.specs.Prelude.{◌≡◌};
ghost use Rattle.fields.specs.Meaning.{channel_meant};
ghost use Rattle.block_replies.specs.Channels.{channel_given, description_c};

use data_types::DataType;
use fields::Channel;

#[repr(C)]
#[derive(Clone, Copy, Debug, Default, PartialEq, Eq)]
pub struct Mf4Channel {
    pub data_type: u8,
    pub channel_type: u8,
    pub bit_offset: u8,
    pub byte_offset: u32,
    pub bit_count: u32,
    pub flags: u32,
    pub pos_invalidation_bit: u32,
    pub data_addr: u64,
}

impl From<Mf4Channel> for Channel {
    ghost from_gives = { λ given channel. channel_meant channel ≡ channel_given given };

    fn from(given: Mf4Channel) -> Channel {
        Channel {
            data_type: DataType::from_u8(given.data_type),
            channel_type: given.channel_type,
            bit_offset: given.bit_offset,
            byte_offset: given.byte_offset,
            bit_count: given.bit_count,
            flags: given.flags,
            pos_invalidation_bit: given.pos_invalidation_bit,
            data: given.data_addr,
        }
    }
}

impl From<Channel> for Mf4Channel {
    ghost from_gives = { λ channel told. told ≡ description_c (channel_meant channel) };

    fn from(channel: Channel) -> Mf4Channel {
        let data_type = channel.data_type;
        Mf4Channel {
            data_type: data_type.to_u8(),
            channel_type: channel.channel_type,
            bit_offset: channel.bit_offset,
            byte_offset: channel.byte_offset,
            bit_count: channel.bit_count,
            flags: channel.flags,
            pos_invalidation_bit: channel.pos_invalidation_bit,
            data_addr: channel.data,
        }
    }
}
