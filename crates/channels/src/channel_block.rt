// A channel block: where a channel's values lie, and what is known of them.
ghost use Rattle.std.specs.Prelude.{◌≡◌, [], ◌∷◌, ◌+◌, ◌*◌, ◌≤◌, length, drop};
ghost use Rattle.std.proofs.lemmas.List.Edits.{sets};
ghost use Rattle.definitions.specs.Bytes.{le};
ghost use Rattle.definitions.specs.ChannelBlock.{fields_at, block_in, channel_block_of, described, channel_header, format_bytes, channel_bytes, channel_written};
ghost use Rattle.blocks.specs.Meaning.{header_meant, wrote};
ghost use Rattle.fields.specs.Meaning.{channel_meant};
ghost use Rattle.channels.specs.Meaning.{channel_block_meant, channel_block_reply};

use blocks::{BlockHeader, put_header, size_with_links};
use data_types::DataType;
use fields::Channel;
use refusals::Refusal;
use words::{id_at, put_all_le, read_all_le, read_le, write_le};

#[derive(Clone, Copy, Debug, PartialEq, Eq)]
pub struct ChannelBlock {
    pub header: BlockHeader,
    pub next_ch_addr: u64,
    pub component_addr: u64,
    pub name_addr: u64,
    pub source_addr: u64,
    pub conversion_addr: u64,
    pub data: u64,
    pub unit_addr: u64,
    pub comment_addr: u64,
    // the links behind the eighth: where in the bytes read, and how many
    pub more_links_at: u64,
    pub more_links: u64,
    pub channel_type: u8,
    pub sync_type: u8,
    pub data_type: DataType,
    pub bit_offset: u8,
    pub byte_offset: u32,
    pub bit_count: u32,
    pub flags: u32,
    pub pos_invalidation_bit: u32,
    pub precision: u8,
    pub reserved1: u8,
    pub attachment_nr: u16,
    // 64-bit patterns, since a NaN of the file keeps its bits
    pub min_raw_value: u64,
    pub max_raw_value: u64,
    pub lower_limit: u64,
    pub upper_limit: u64,
    pub lower_ext_limit: u64,
    pub upper_ext_limit: u64,
}

// The block behind its header, where all of it is there
fn read_block(bytes: &[u8], header: BlockHeader) -> ChannelBlock
    requires { (8 ≤ header.links_nr) × (fields_at header.links_nr + 72 ≤ length bytes.now) }
    ensures { channel_block_meant result ≡ block_in bytes.now (header_meant header) (drop (fields_at header.links_nr) bytes.now) }
{
    let fields = &bytes[24 + header.links_nr as usize * 8..];
    let mut links = [0; 8];
    let mut limits = [0; 6];
    read_all_le(bytes, 24, &mut links);
    read_all_le(fields, 24, &mut limits);
    ChannelBlock {
        header,
        next_ch_addr: links[0],
        component_addr: links[1],
        name_addr: links[2],
        source_addr: links[3],
        conversion_addr: links[4],
        data: links[5],
        unit_addr: links[6],
        comment_addr: links[7],
        more_links_at: 88,
        more_links: header.links_nr - 8,
        channel_type: fields[0],
        sync_type: fields[1],
        data_type: DataType::from_u8(fields[2]),
        bit_offset: fields[3],
        byte_offset: read_le(fields, 4),
        bit_count: read_le(fields, 8),
        flags: read_le(fields, 12),
        pos_invalidation_bit: read_le(fields, 16),
        precision: fields[20],
        reserved1: fields[21],
        attachment_nr: read_le(fields, 22),
        min_raw_value: limits[0],
        max_raw_value: limits[1],
        lower_limit: limits[2],
        upper_limit: limits[3],
        lower_ext_limit: limits[4],
        upper_ext_limit: limits[5],
    }
}

impl ChannelBlock {
    pub const ID: [u8; 4] = *b"##CN";

    pub fn from_bytes(bytes: &[u8]) -> Result<ChannelBlock, Refusal>
        ensures { channel_block_reply result ≡ channel_block_of bytes.now }
    {
        let header = BlockHeader::from_bytes(bytes)?;
        if !id_at(bytes, 0, &ChannelBlock::ID) {
            return Err(Refusal::OtherId);
        }
        if header.links_nr < 8 {
            return Err(Refusal::TooFewLinks);
        }
        let need = size_with_links(96, header.links_nr);
        if (bytes.len() as u64) < need {
            return Err(Refusal::TooFewBytes(need));
        }
        Ok(read_block(bytes, header))
    }

    // What the block tells of its channel, as the decoder takes it: nobody else copies these fields.
    pub fn channel(self) -> Channel
        ensures { channel_meant result ≡ described (channel_block_meant self) }
    {
        Channel {
            data_type: self.data_type,
            channel_type: self.channel_type,
            bit_offset: self.bit_offset,
            byte_offset: self.byte_offset,
            bit_count: self.bit_count,
            data: self.data,
            flags: self.flags,
            pos_invalidation_bit: self.pos_invalidation_bit,
        }
    }

    // With a header of its own, eight links and no attachments
    pub fn to_bytes(self, out: &mut [u8]) -> Result<u64, Refusal>
        ensures { wrote result out.new ≡ channel_written out.old (channel_block_meant self) }
    {
        if out.len() < 160 {
            return Err(Refusal::NoRoom(160));
        }
        put_block(out, self);
        Ok(160)
    }
}

// The header that every channel block is written with
fn channel_header() -> BlockHeader
    ensures { header_meant result ≡ channel_header }
{
    BlockHeader {
        id: read_le(&ChannelBlock::ID, 0),
        reserved0: 0,
        block_len: 160,
        links_nr: 8,
    }
}

// Four bytes as a word, the first the lowest
fn four_bytes(first: u8, second: u8, third: u8, fourth: u8) -> u32
    ensures { le 4 result ≡ first ∷ second ∷ third ∷ fourth ∷ [] }
{
    let bytes = [first, second, third, fourth];
    read_le(&bytes, 0)
}

// The fields before the limits, where there is room for them. The reserved byte and the attachment count, of two bytes, are 0.
fn put_format(out: &mut [u8], block: ChannelBlock)
    requires { 160 ≤ length out.old }
    ensures { out.new ≡ sets out.old 88 (format_bytes (channel_block_meant block)) }
{
    let code = block.data_type.to_u8();
    write_le(
        out,
        88,
        four_bytes(block.channel_type, block.sync_type, code, block.bit_offset),
    );
    write_le(out, 92, block.byte_offset);
    write_le(out, 96, block.bit_count);
    write_le(out, 100, block.flags);
    write_le(out, 104, block.pos_invalidation_bit);
    write_le(out, 108, four_bytes(block.precision, 0, 0, 0));
}

// The 160 bytes, where there is room for them
fn put_block(out: &mut [u8], block: ChannelBlock)
    requires { 160 ≤ length out.old }
    ensures { out.new ≡ sets out.old 0 (channel_bytes (channel_block_meant block)) }
{
    let links = [
        block.next_ch_addr,
        block.component_addr,
        block.name_addr,
        block.source_addr,
        block.conversion_addr,
        block.data,
        block.unit_addr,
        block.comment_addr,
    ];
    let limits = [
        block.min_raw_value,
        block.max_raw_value,
        block.lower_limit,
        block.upper_limit,
        block.lower_ext_limit,
        block.upper_ext_limit,
    ];
    put_header(out, channel_header());
    put_all_le(out, 24, &links);
    put_format(out, block);
    put_all_le(out, 112, &limits);
}
