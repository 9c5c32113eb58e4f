// Behind the last fragment of a list: the next list, or the end of the chain.
ghost use Rattle.std.specs.Prelude.{◌≡◌, ◌+◌, ◌≤◌, length, drop, eqb};
ghost use Rattle.definitions.specs.Bytes.{u64_at};
ghost use Rattle.definitions.specs.Chain.{keeps_to};
ghost use Rattle.steps.specs.Steps.{LengthWithin, ListKnown, declaration_in, next_reply, next_of};

use crate::fragment::one_length;
use places::{DataPosition, LIST_LIMIT, OpenList, Place, bytes_from, list_at};
use refusals::Refusal;

#[derive(Clone, Copy, Debug, PartialEq, Eq)]
pub enum Next {
    // before the first fragment of the next list
    List(Place),
    // the chain is done, with so much data
    End(DataPosition),
}

// The one length of a list's fragments, from the file
fn one_length_of(file: &[u8], list: OpenList) -> u64
    requires { (list.address.0 ≤ length file.now) × (list.rest_at + 8 ≤ length (drop list.address.0 file.now)) }
    ensures { result ≡ u64_at (drop list.address.0 file.now) list.rest_at }
{
    one_length(bytes_from(file, list.address), list)
}

// Whether a list declares what the one before it does: flag bit 0 or offsets, and with the flag one length and one count, which
// the last list may fall below.
fn keeps_to(file: &[u8], earlier: OpenList, list: OpenList) -> bool
    requires { (LengthWithin file.now earlier) × (LengthWithin file.now list) }
    ensures { result ≡ keeps_to (declaration_in file.now earlier) (eqb list.next.0 0) (declaration_in file.now list) }
{
    if earlier.flags % 2 != list.flags % 2 {
        return false;
    }
    if list.flags % 2 == 0 {
        return true;
    }
    if one_length_of(file, earlier) != one_length_of(file, list) {
        return false;
    }
    if list.is_last() {
        return list.links <= earlier.links;
    }
    list.links == earlier.links
}

// The next list is read here, once, and its fragments then by index. Each list but the last declares what the first does, so
// the list before stands for the first one, of which the place keeps nothing. A function apart: put into the readers' loops with
// the step, it took four instructions more a fragment.
#[inline(never)]
#[tactic(auto, unfolding(crate::specs::Steps::next_of))]
pub fn next_list(file: &[u8], place: Place) -> Result<Next, Refusal>
    requires { ListKnown file.now place }
    ensures { next_reply result ≡ next_of file.now place }
{
    if place.has_ended() {
        return Ok(Next::End(place.position));
    }
    if LIST_LIMIT <= place.lists {
        return Err(Refusal::TooManyLists);
    }
    let list = list_at(file, place.list.next, place.fragments + place.index)?;
    let entered = place.enter(list);
    if place.lists != 0 && !keeps_to(file, place.list, entered.list) {
        return Err(Refusal::UntrueDeclaration);
    }
    Ok(Next::List(entered))
}
