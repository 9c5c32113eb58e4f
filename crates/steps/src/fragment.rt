// A fragment: the data block that a list links, and what the list declares of it.
ghost use Rattle.std.specs.Prelude.{◌≡◌, ◌&&◌, ◌+◌, ◌*◌, ◌≤◌, ◌<◌, length, leb, eqb};
ghost use Rattle.definitions.specs.Bytes.{u64_at};
ghost use Rattle.definitions.specs.DataList.{DataList};
ghost use Rattle.definitions.specs.Chain.{declared, fragment_of};
ghost use Rattle.places.specs.Meaning.{block_reply};
ghost use Rattle.places.specs.Places.{Opens};
ghost use Rattle.steps.specs.Steps.{LinkWithin, ListKnown, fragment_at};

use places::{DataBlock, FileAddress, OpenList, Place, bytes_from, data_block_at};
use refusals::Refusal;
use words::read_le;

// The link of the fragment. A number that is read in a function of its own is one load where the compiler weighs what to
// inline, and the walk's loops take in the whole fragment.
fn link_at(bytes: &[u8], place: Place) -> FileAddress
    requires { LinkWithin bytes.now place.list place.index }
    ensures { result.0 ≡ u64_at bytes.now (place.list.links_at + place.index * 8) }
{
    let at = place.list.links_at as usize + place.index as usize * 8;
    FileAddress(read_le(bytes, at))
}

// The one length of the list's fragments
pub(crate) fn one_length(bytes: &[u8], list: OpenList) -> u64
    requires { list.rest_at + 8 ≤ length bytes.now }
    ensures { result ≡ u64_at bytes.now list.rest_at }
{
    read_le(bytes, list.rest_at as usize)
}

// Whether no fragment of the chain follows
fn is_last_fragment(place: Place) -> bool
    requires { place.index + 1 < 18446744073709551616 }
    ensures { result ≡ (eqb place.list.next.0 0 && leb place.list.links (place.index + 1)) }
{
    place.list.is_last() && place.list.links <= place.index + 1
}

// Whether the length or the offset that the list declares of its fragment is true. `bytes` is the file from the list on.
fn truly_declared(bytes: &[u8], place: Place, size: u64) -> bool
    requires { LinkWithin bytes.now place.list place.index }
    ensures { (d : DataList) → Opens place.list d → result ≡ declared bytes.now d place.index place.position.0 size }
{
    let list = place.list;
    if list.flags % 2 == 1 {
        let length = one_length(bytes, list);
        size == length || size < length && is_last_fragment(place)
    } else {
        let at = list.rest_at as usize + place.index as usize * 8;
        place.position.0 == read_le(bytes, at)
    }
}

// The fragment at a place, where `bytes` is the file from its list on. The link alone says where it is.
#[tactic(auto, unfolding(definitions::specs::Chain::fragment_of))]
fn fragment_in(file: &[u8], bytes: &[u8], place: Place, id: &[u8; 4]) -> Result<DataBlock, Refusal>
    requires { LinkWithin bytes.now place.list place.index }
    ensures { (d : DataList) → Opens place.list d → block_reply result ≡ fragment_of id.now file.now bytes.now d place.index place.position.0 }
{
    let block = data_block_at(file, link_at(bytes, place), id)?;
    if !truly_declared(bytes, place, block.size) {
        return Err(Refusal::UntrueDeclaration);
    }
    Ok(block)
}

// The fragment at a place inside a list
#[tactic(auto, unfolding(crate::specs::Steps::fragment_at))]
pub fn fragment_at(file: &[u8], place: Place, id: &[u8; 4]) -> Result<DataBlock, Refusal>
    requires { (ListKnown file.now place) × (place.index < place.list.links) }
    ensures { block_reply result ≡ fragment_at id.now file.now place }
{
    let bytes = bytes_from(file, place.list.address);
    fragment_in(file, bytes, place, id)
}
