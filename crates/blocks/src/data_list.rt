// A data list: links to data blocks, and what it declares of them.
ghost use Rattle.std.specs.Prelude.{◌≡◌, ◌+◌, ◌*◌, ◌≤◌, ◌<◌, length};
ghost use Rattle.std.proofs.lemmas.List.Edits.{sets};
ghost use Rattle.definitions.specs.Reply.{writing};
ghost use Rattle.definitions.specs.DataList.{link_limit, list_of, rest_of, rest_count, header_for, list_bytes, list_size, list_written, equal, variable};
ghost use Rattle.blocks.specs.Meaning.{header_meant, list_reply, wrote};

use crate::header::{BlockHeader, put_header, size_with_links};
use refusals::Refusal;
use words::{id_at, le_bytes, put_all_le, read_le, write_le};

// a list that is written has at most so many data links
const LINK_LIMIT: usize = 4096;

#[derive(Clone, Copy, Debug, PartialEq, Eq)]
pub struct DataListBlock {
    pub header: BlockHeader,
    // the next list's address
    pub next: u64,
    // the data links: where in the bytes read, and how many
    pub links_at: u64,
    pub links: u64,
    pub flags: u8,
    pub reserved1: u32,
    pub data_block_nr: u32,
    // the one length or the offsets: where in the bytes read, and how many
    pub rest_at: u64,
    pub rest: u64,
}

// How many numbers stand after the count
fn rest_count(flags: u8, count: u32) -> u64
    ensures { (result ≡ rest_count flags count) × (result < 4294967296) }
{
    if flags % 2 == 1 { 1 } else { count as u64 }
}

// The list behind its header, where the links and the fixed fields are there
fn list_rest(bytes: &[u8], header: BlockHeader) -> Result<DataListBlock, Refusal>
    requires { (0 < header.links_nr) × (32 + header.links_nr * 8 ≤ length bytes.now) }
    ensures { list_reply result ≡ rest_of bytes.now (header_meant header) }
{
    let links = header.links_nr;
    let at = 24 + links as usize * 8;
    let flags = bytes[at];
    let count = read_le(bytes, at + 4);
    let rest = rest_count(flags, count);
    let need = at as u64 + 8 + rest * 8;
    if (bytes.len() as u64) < need {
        return Err(Refusal::TooFewBytes(need));
    }
    Ok(DataListBlock {
        header,
        next: read_le(bytes, 24),
        links_at: 32,
        links: links - 1,
        flags,
        reserved1: le_bytes(bytes, at + 1, 3) as u32,
        data_block_nr: count,
        rest_at: at as u64 + 8,
        rest,
    })
}

impl DataListBlock {
    pub const ID: [u8; 4] = *b"##DL";

    pub fn from_bytes(bytes: &[u8]) -> Result<DataListBlock, Refusal>
        ensures { list_reply result ≡ list_of bytes.now }
    {
        let header = BlockHeader::from_bytes(bytes)?;
        if !id_at(bytes, 0, &DataListBlock::ID) {
            return Err(Refusal::OtherId);
        }
        if header.links_nr == 0 {
            return Err(Refusal::NoLinks);
        }
        let need = size_with_links(32, header.links_nr);
        if (bytes.len() as u64) < need {
            return Err(Refusal::TooFewBytes(need));
        }
        list_rest(bytes, header)
    }

    // A list with one length for every fragment. Two calls and no third over both: they are given different things, and C has each.
    pub fn write_equal(
        next: u64,
        links: &[u64],
        length: u64,
        out: &mut [u8],
    ) -> Result<u64, Refusal>
        ensures { wrote result out.new ≡ list_written out.old next links.now (equal length) }
    {
        if LINK_LIMIT < links.len() {
            return Err(Refusal::UnwritableList);
        }
        let rest = [length];
        write_fields(next, links, 1, &rest, out)
    }

    // A list with an offset for each fragment
    pub fn write_variable(
        next: u64,
        links: &[u64],
        offsets: &[u64],
        out: &mut [u8],
    ) -> Result<u64, Refusal>
        ensures { wrote result out.new ≡ list_written out.old next links.now (variable offsets.now) }
    {
        if LINK_LIMIT < links.len() {
            return Err(Refusal::UnwritableList);
        }
        if links.len() != offsets.len() {
            return Err(Refusal::UnwritableList);
        }
        write_fields(next, links, 0, offsets, out)
    }
}

// The fields of a list, or the bytes that they need
fn write_fields(
    next: u64,
    links: &[u64],
    flags: u8,
    rest: &[u64],
    out: &mut [u8],
) -> Result<u64, Refusal>
    requires { (length links.now ≤ link_limit) × (length rest.now ≤ link_limit) }
    ensures { wrote result out.new ≡ writing out.old (list_bytes next links.now flags rest.now) (list_size (length links.now) (length rest.now)) }
{
    let need = 40 + links.len() * 8 + rest.len() * 8;
    if out.len() < need {
        return Err(Refusal::NoRoom(need as u64));
    }
    put_fields(out, next, links, flags, rest);
    Ok(need as u64)
}

// The fields, where there is room for them
fn put_fields(out: &mut [u8], next: u64, links: &[u64], flags: u8, rest: &[u64])
    requires { (length links.now ≤ link_limit) × (length rest.now ≤ link_limit) × (40 + length links.now * 8 + length rest.now * 8 ≤ length out.old) }
    ensures { out.new ≡ sets out.old 0 (list_bytes next links.now flags rest.now) }
{
    let at = 32 + links.len() * 8;
    put_header(out, list_header(links.len() as u64, rest.len() as u64));
    write_le(out, 24, next);
    put_all_le(out, 32, links);
    write_le(out, at, flags as u32);
    write_le(out, at + 4, links.len() as u32);
    put_all_le(out, at + 8, rest);
}

// The header of a list with so many data links, and so many numbers after the count
fn list_header(links: u64, rest: u64) -> BlockHeader
    requires { (links ≤ link_limit) × (rest ≤ link_limit) }
    ensures { header_meant result ≡ header_for links rest }
{
    BlockHeader {
        id: read_le(&DataListBlock::ID, 0),
        reserved0: 0,
        block_len: 40 + links * 8 + rest * 8,
        links_nr: links + 1,
    }
}
