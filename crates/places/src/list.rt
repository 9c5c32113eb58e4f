// A data list of the chain: it agrees with itself, and does not link too many fragments.
ghost use Rattle.std.specs.Prelude.{◌≡◌, ◌+◌, ◌*◌, ◌<◌};
ghost use Rattle.definitions.specs.Chain.{agrees, list_at};
ghost use Rattle.blocks.specs.Meaning.{list_meant, list_reply};

use crate::limits::FRAGMENT_LIMIT;
use crate::place::{FileAddress, bytes_from, has_header, sum_passes};
use blocks::DataListBlock;
use refusals::Refusal;

// Whether the count is that of the links, and the block long enough for its fields
fn agrees_with_itself(list: DataListBlock) -> bool
    requires { list.rest_at + list.rest * 8 < 18446744073709551616 }
    ensures { result ≡ agrees (list_meant list) }
{
    u64::from(list.data_block_nr) == list.links
        && list.rest_at + list.rest * 8 <= list.header.block_len
}

// The list at an address, with so many fragments in the lists before it
#[tactic(auto, unfolding(definitions::specs::Chain::list_at))]
pub fn list_at(file: &[u8], address: FileAddress, fragments: u64) -> Result<DataListBlock, Refusal>
    ensures { list_reply result ≡ list_at file.now fragments address.0 }
{
    if !has_header(file, address) {
        return Err(Refusal::NoBlockThere);
    }
    let list = DataListBlock::from_bytes(bytes_from(file, address))?;
    if !agrees_with_itself(list) {
        return Err(Refusal::ListDisagrees);
    }
    if sum_passes(fragments, list.links, FRAGMENT_LIMIT) {
        return Err(Refusal::TooManyFragments);
    }
    Ok(list)
}
