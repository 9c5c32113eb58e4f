// A chain of three lists is gone over by its fragments: the second list has none.
use super::*;
use std::test::Fail;

fn word(number: u64) -> [u8; 8] {
    number.to_le_bytes()
}

// Lists at 8, 64 and 104, which link one block, none and one, with 3 bytes at 160 and 5 at 192. Flags of 0 and a count of one are
// `1 << 32`, and an offset is declared for each block.
fn three_lists() -> [[u8; 8]; 28] {
    [
        [0; 8],
        *b"##DL\0\0\0\0",
        word(56),
        word(2),
        word(64),
        word(160),
        word(1 << 32),
        word(0),
        *b"##DL\0\0\0\0",
        word(40),
        word(1),
        word(104),
        word(0),
        *b"##DL\0\0\0\0",
        word(56),
        word(2),
        word(0),
        word(192),
        word(1 << 32),
        word(3),
        *b"##DT\0\0\0\0",
        word(27),
        word(0),
        word(0),
        *b"##DT\0\0\0\0",
        word(29),
        word(0),
        word(0),
    ]
}

#[test]
fn fragments_of_three_lists(rt: HostRuntime) -> Result<(), Fail> {
    let words = three_lists();
    let file = words.as_flattened();
    let mut place = Place::start(FileAddress(8));
    let mut wanted = [(0, 160, 3), (3, 192, 5)].into_iter();
    while let Some(fragment) = next_fragment(file, &mut place, &DataBlock::ID)? {
        let block = fragment.block;
        let met = (fragment.before.position.0, block.address.0, block.size);
        assert_eq!(rt; Some(met), wanted.next());
    }
    assert_eq!(rt; wanted.next(), None);
    assert_eq!(rt;
        (place.lists, place.fragments, place.index, place.position.0),
        (3, 1, 1, 8)
    );
    Ok(())
}
