// Two kinds of numbers, addresses in the file and positions in the joined data, and where a walk stands.
ghost use Rattle.std.specs.Prelude.{◌≡◌, ◌&&◌, ◌+◌, ◌≤◌, ◌<◌, length, drop, ltb, leb, eqb};
ghost use Rattle.definitions.specs.Chain.{has_header};
ghost use Rattle.blocks.specs.Meaning.{list_meant};
ghost use Rattle.places.specs.Places.{start_at, further, behind, ended, entered};

use blocks::DataListBlock;

// where a block stands in the file
#[derive(Clone, Copy, Debug, Default, PartialEq, Eq)]
pub struct FileAddress(pub u64);

// how many bytes of the joined data are before
#[derive(Clone, Copy, Debug, Default, PartialEq, Eq)]
pub struct DataPosition(pub u64);

// What a walk keeps of a list that it has read, so that the list is read once
#[derive(Clone, Copy, Debug, Default, PartialEq, Eq)]
pub struct OpenList {
    pub address: FileAddress,
    // the data links: where in the bytes from the address on, and how many
    pub links_at: u64,
    pub links: u64,
    pub flags: u8,
    // where the one length or the offsets stand in those bytes
    pub rest_at: u64,
    // 0 where no list follows, as the block and the definition `opened` have it
    pub next: FileAddress,
}

// Before fragment `index` of the list read last. At the start no list is read, and the next one is the first; the count of lists
// tells it, as in the definition `ended`, and no Option, which every fragment would have to ask.
#[derive(Clone, Copy, Debug, Default, PartialEq, Eq)]
pub struct Place {
    pub list: OpenList,
    // how many lists are read
    pub lists: u64,
    // the fragments of the lists before the last
    pub fragments: u64,
    pub index: u64,
    // the data of all fragments before
    pub position: DataPosition,
}

// Whether a + b is over a limit. The sum is not taken, since it could wrap.
pub(crate) fn sum_passes(a: u64, b: u64, limit: u64) -> bool
    ensures { result ≡ ltb limit (a + b) }
{
    limit < b || limit - b < a
}

impl FileAddress {
    // whether a block of that size ends past the file
    pub(crate) fn ends_outside(self, size: u64, file: &[u8]) -> bool
        ensures { result ≡ ltb (length file.now) (self.0 + size) }
    {
        sum_passes(self.0, size, file.len() as u64)
    }
}

// Whether the file has the 24 bytes of a header there
pub(crate) fn has_header(file: &[u8], address: FileAddress) -> bool
    ensures { result ≡ has_header file.now address.0 }
{
    address.0 != 0 && !address.ends_outside(24, file)
}

// The file from an address on. Nothing else reads the file.
pub fn bytes_from(file: &[u8], address: FileAddress) -> &[u8]
    requires { address.0 ≤ length file.now }
    ensures { result.now ≡ drop address.0 file.now }
{
    &file[address.0 as usize..]
}

impl DataPosition {
    // whether so many bytes from another position on all stand before this one
    pub fn is_behind(self, from: DataPosition, size: u64) -> bool
        ensures { result ≡ leb (from.0 + size) self.0 }
    {
        from.0 <= self.0 && size <= self.0 - from.0
    }

    // whether it is that of a byte from one position on and before another
    pub fn stands_in(self, first: DataPosition, end: DataPosition) -> bool
        ensures { result ≡ (leb first.0 self.0 && ltb self.0 end.0) }
    {
        first.0 <= self.0 && self.0 < end.0
    }

    pub fn further(self, size: u64) -> DataPosition
        requires { self.0 + size < 18446744073709551616 }
        ensures { result ≡ further self size }
    {
        DataPosition(self.0 + size)
    }
}

impl OpenList {
    // whether it links no further list
    pub fn is_last(self) -> bool
        ensures { result ≡ eqb self.next.0 0 }
    {
        self.next.0 == 0
    }
}

impl Place {
    // before a chain's first list
    pub fn start(first: FileAddress) -> Place
        ensures { result ≡ start_at first }
    {
        Place {
            list: OpenList {
                next: first,
                ..OpenList::default()
            },
            ..Place::default()
        }
    }

    // behind a fragment with so many bytes of data
    pub fn behind(self, size: u64) -> Place
        requires { (self.index + 1 < 18446744073709551616) × (self.position.0 + size < 18446744073709551616) }
        ensures { result ≡ behind self size }
    {
        Place {
            index: self.index + 1,
            position: self.position.further(size),
            ..self
        }
    }

    // whether the list read last links no further one
    pub fn has_ended(self) -> bool
        ensures { result ≡ ended self }
    {
        self.lists != 0 && self.list.is_last()
    }

    // before the first fragment of the next list, which was read
    pub fn enter(self, list: DataListBlock) -> Place
        requires { (self.lists + 1 < 18446744073709551616) × (self.fragments + self.index < 18446744073709551616) }
        ensures { result ≡ entered self (list_meant list) }
    {
        Place {
            list: OpenList {
                address: self.list.next,
                links_at: list.links_at,
                links: list.links,
                flags: list.flags,
                rest_at: list.rest_at,
                next: FileAddress(list.next),
            },
            lists: self.lists + 1,
            fragments: self.fragments + self.index,
            index: 0,
            position: self.position,
        }
    }
}
