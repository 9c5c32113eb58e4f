// The first reader of a chain: is it accepted, how much data does it join, and where does a position of that data stand?
ghost use Rattle.std.specs.Prelude.{◌≡◌, ◌≤◌, length};
ghost use Rattle.definitions.specs.Chain.{file_limit, length_by, data_length};
ghost use Rattle.chain.specs.Meaning.{chain_reply};
ghost use Rattle.chain.specs.Located.{Locates};

use crate::walk::{Step, next_step};
use places::{DataBlock, DataPosition, FILE_LIMIT, FileAddress, Place};
use refusals::Refusal;

// Where a wanted position stands in the joined data
#[derive(Clone, Copy, Debug, PartialEq, Eq)]
pub struct Located {
    // the length of the joined data
    pub total: DataPosition,
    // a place on the way that is not behind the wanted position
    pub place: Place,
}

// Walks all of a chain, since a position stands in a chain that is whole, and keeps the place before the fragment that
// holds the wanted position. Its one caller has tested the length; a type that knows it would be made for this call alone.
fn locate(
    file: &[u8],
    start: FileAddress,
    id: &[u8; 4],
    wanted: DataPosition,
) -> Result<Located, Refusal>
    requires { length file.now ≤ file_limit }
    ensures { Locates id.now file.now start.0 wanted.0 (length_by id.now file.now start.0) result }
{
    let mut place = Place::start(start);
    let mut kept = place;
    while let Some(step) = next_step(file, &mut place, id)? {
        if let Step::OverFragment(fragment) = step {
            let first = fragment.before.position;
            let end = place.position;
            if wanted.stands_in(first, end) {
                kept = fragment.before;
            }
        }
    }
    Ok(Located {
        total: place.position,
        place: kept,
    })
}

// The same in any file. The one caller of that loop, so that it is inlined. The loop is a function of its own all the same:
// written here it took 13 instructions more a fragment.
pub fn locate_data(
    file: &[u8],
    start: FileAddress,
    id: &[u8; 4],
    wanted: DataPosition,
) -> Result<Located, Refusal>
    ensures { Locates id.now file.now start.0 wanted.0 (length_by id.now file.now start.0) result }
{
    if FILE_LIMIT < file.len() {
        return Err(Refusal::FileTooLong);
    }
    locate(file, start, id, wanted)
}

// The length of the joined data of a chain of data blocks
pub fn data_length(file: &[u8], start: FileAddress) -> Result<DataPosition, Refusal>
    ensures { chain_reply result ≡ data_length file.now start.0 }
{
    let located = locate_data(file, start, &DataBlock::ID, DataPosition(0))?;
    Ok(located.total)
}
