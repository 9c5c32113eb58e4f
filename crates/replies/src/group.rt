// The group of a channel, as C gives it.
ghost use Rattle.std.specs.Prelude.{◌≡◌};
ghost use Rattle.fields.specs.Meaning.{group_meant};
ghost use Rattle.replies.specs.Values.{group_given};

use fields::Group;

#[repr(C)]
#[derive(Clone, Copy, Debug, Default, PartialEq, Eq)]
pub struct Mf4Group {
    pub record_id_size: u64,
    pub data_bytes: u32,
    pub invalidation_bytes: u32,
}

impl From<Mf4Group> for Group {
    ghost from_gives = { λ given group. group_meant group ≡ group_given given };

    fn from(given: Mf4Group) -> Group {
        Group {
            record_id_size: given.record_id_size as usize,
            data_bytes: given.data_bytes,
            invalidation_bytes: given.invalidation_bytes,
        }
    }
}
