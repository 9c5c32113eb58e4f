// Records of one size, and where a number lies in each.
ghost use Rattle.slots.specs.Slots.{Within};

use slots::Slot;

#[derive(Clone, Copy)]
pub(crate) struct Layout {
    pub size: usize,
    pub slot: Slot,
    ghost within: { Within size slot },
}
