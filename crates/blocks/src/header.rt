// The header of a block.
ghost use Rattle.std.specs.Prelude.{◌≡◌, ◌+◌, ◌*◌, ◌≤◌, ◌<◌, length};
ghost use Rattle.std.proofs.lemmas.List.Edits.{sets};
ghost use Rattle.definitions.specs.Reply.{told};
ghost use Rattle.definitions.specs.Header.{header_of, header_bytes, header_written};
ghost use Rattle.blocks.specs.Meaning.{header_meant, header_reply, wrote};

use refusals::Refusal;
use words::{read_le, write_le};

#[derive(Clone, Copy, Debug, PartialEq, Eq)]
pub struct BlockHeader {
    // the four raw bytes, the first the lowest
    pub id: u32,
    pub reserved0: u32,
    pub block_len: u64,
    pub links_nr: u64,
}

impl BlockHeader {
    pub fn from_bytes(bytes: &[u8]) -> Result<BlockHeader, Refusal>
        ensures { header_reply result ≡ header_of bytes.now }
    {
        if bytes.len() < 24 {
            return Err(Refusal::TooFewBytes(24));
        }
        Ok(BlockHeader {
            id: read_le(bytes, 0),
            reserved0: read_le(bytes, 4),
            block_len: read_le(bytes, 8),
            links_nr: read_le(bytes, 16),
        })
    }

    pub fn to_bytes(self, out: &mut [u8]) -> Result<u64, Refusal>
        ensures { wrote result out.new ≡ header_written out.old (header_meant self) }
    {
        if out.len() < 24 {
            return Err(Refusal::NoRoom(24));
        }
        put_header(out, self);
        Ok(24)
    }
}

// The bytes that fixed ones and so many links take, or the largest number where that is larger
pub fn size_with_links(fixed: u64, links: u64) -> u64
    requires { fixed < 256 }
    ensures { result ≡ told (fixed + links * 8) }
{
    links.saturating_mul(8).saturating_add(fixed)
}

// The 24 bytes, where there is room for them
pub fn put_header(out: &mut [u8], header: BlockHeader)
    requires { 24 ≤ length out.old }
    ensures { out.new ≡ sets out.old 0 (header_bytes (header_meant header)) }
{
    write_le(out, 0, header.id);
    write_le(out, 4, header.reserved0);
    write_le(out, 8, header.block_len);
    write_le(out, 16, header.links_nr);
}
