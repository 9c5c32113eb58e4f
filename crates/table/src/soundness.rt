// Whether a lent table can be right: one pass over its fragments, from the last to the first.
ghost use Rattle.std.specs.Prelude.{◌≡◌, ◌+◌};
ghost use Rattle.table.specs.Passed.{ends_by, passes};

use crate::layout::{TABLE_LIMIT, Table, address_at, count, position_at, total};
use chain::FileAddress;

// the bytes of a header
const HEADER_SIZE: u64 = 24;

// Whether a block, with its header, ends inside the file, where one is given. No sum is taken, since it could wrap.
fn ends_inside(address: FileAddress, size: u64, file_end: Option<u64>) -> bool
    ensures { result ≡ ends_by file_end (address.0 + 24 + size) }
{
    let Some(length) = file_end else {
        return true;
    };
    HEADER_SIZE <= length
        && size <= length - HEADER_SIZE
        && address.0 <= length - HEADER_SIZE - size
}

pub(crate) fn can_be_right(table: &Table, file_end: Option<u64>) -> bool
    ensures { result ≡ passes file_end table.now }
{
    let fragments = count(table);
    if TABLE_LIMIT < fragments {
        return false;
    }
    let mut end = total(table);
    for place in (0..fragments).rev() {
        let begin = position_at(table, place);
        if end.0 < begin.0 {
            return false;
        }
        let address = address_at(table, place);
        if !ends_inside(address, end.0 - begin.0, file_end) {
            return false;
        }
        end = begin;
    }
    end.0 == 0
}
