// A data block: its data follows its header.
ghost use Rattle.std.specs.Prelude.{◌≡◌, ◌+◌, ◌≤◌, length};
ghost use Rattle.definitions.specs.Chain.{block_at, data_of};
ghost use Rattle.places.specs.Meaning.{block_meant, block_reply};

use crate::place::{FileAddress, bytes_from, has_header};
use blocks::BlockHeader;
use refusals::Refusal;
use words::id_at;

#[derive(Clone, Copy, Debug, PartialEq, Eq)]
pub struct DataBlock {
    pub address: FileAddress,
    // the bytes of data behind the 24 of the header
    pub size: u64,
}

impl DataBlock {
    pub const ID: [u8; 4] = *b"##DT";
    // of a block of payloads
    pub const SIGNAL_ID: [u8; 4] = *b"##SD";
}

// The data block with that id at an address
pub fn data_block_at(file: &[u8], address: FileAddress, id: &[u8; 4]) -> Result<DataBlock, Refusal>
    ensures { block_reply result ≡ block_at id.now file.now address.0 }
{
    if !has_header(file, address) {
        return Err(Refusal::NoBlockThere);
    }
    let bytes = bytes_from(file, address);
    let header = BlockHeader::from_bytes(bytes)?;
    if !id_at(bytes, 0, id)
        || header.links_nr != 0
        || header.block_len < 24
        || address.ends_outside(header.block_len, file)
    {
        return Err(Refusal::BadDataBlock);
    }
    Ok(DataBlock {
        address,
        size: header.block_len - 24,
    })
}

// The data of a block that lies in the file
pub fn data_of(file: &[u8], block: DataBlock) -> &[u8]
    requires { block.address.0 + 24 + block.size ≤ length file.now }
    ensures { result.now ≡ data_of file.now (block_meant block) }
{
    let bytes = bytes_from(file, block.address);
    &bytes[24..24 + block.size as usize]
}
