// One step of a walk along a chain: over the next fragment of a list, or behind its last into the next list; and a walk to the
// next fragment.
ghost use Rattle.std.specs.Prelude.{ℕ, List};
ghost use Rattle.definitions.specs.Chain.{Block};
ghost use Rattle.chain.specs.Walk.{At};
ghost use Rattle.chain.specs.Stepped.{Stepped, OneStep};

use places::{DataBlock, Place};
use refusals::Refusal;
use steps::{Next, fragment_at, next_list};

// A fragment that a walk has met
#[derive(Clone, Copy, Debug, PartialEq, Eq)]
pub struct Fragment {
    // the place before it
    pub before: Place,
    pub block: DataBlock,
}

// What a walk's step goes over. A list stands beside the fragments for the compiler's sake alone: its readers do nothing there.
#[derive(Clone, Copy, Debug, PartialEq, Eq)]
pub enum Step {
    OverFragment(Fragment),
    // into the next list, before its first fragment
    IntoList,
}

// The step from the place, which then is behind the fragment or before the first one of the list; none at the chain's end. The
// compiler puts it into every reader's loop, as the instruction to inline says: a fragment that is read in a function apart goes
// through memory. A reader is told of each list that is entered, and both steps go back to one place of its loop: so the compiler
// makes an inner loop over the fragments, whose list stays in registers. It is no method of an Iterator, which would have to come
// to an end behind a refusal, and so to keep that there was one, while readers ask for the place behind the walk. The file and the
// id stand beside the place: in one struct with it, each reader would have to show after each step that they are still the same.
#[inline(always)]
pub fn next_step(file: &[u8], place: &mut Place, id: &[u8; 4]) -> Result<Option<Step>, Refusal>
    requires { (start : ℕ) × (before : List Block) × At id.now file.now start place.old before }
    ensures { (start : ℕ) (before : List Block) → At id.now file.now start place.old before → OneStep id.now file.now start place.old before result place.new }
{
    if place.index < place.list.links {
        let before = *place;
        let block = fragment_at(file, before, id)?;
        *place = before.behind(block.size);
        return Ok(Some(Step::OverFragment(Fragment { before, block })));
    }
    match next_list(file, *place)? {
        Next::List(entered) => {
            *place = entered;
            Ok(Some(Step::IntoList))
        }
        Next::End(_) => Ok(None),
    }
}

// The fragment behind the place, which then is behind that fragment; none behind the last one. The lists that end before it are
// gone over here, for whoever wants fragments alone. The readers in this library are loops over `next_step`, for the reason that
// stands there.
#[inline(always)]
pub fn next_fragment(
    file: &[u8],
    place: &mut Place,
    id: &[u8; 4],
) -> Result<Option<Fragment>, Refusal>
    requires { (start : ℕ) × (before : List Block) × At id.now file.now start place.old before }
    ensures { (start : ℕ) (before : List Block) → At id.now file.now start place.old before → Stepped id.now file.now start place.old before result place.new }
{
    while let Some(step) = next_step(file, place, id)? {
        if let Step::OverFragment(fragment) = step {
            return Ok(Some(fragment));
        }
    }
    Ok(None)
}
