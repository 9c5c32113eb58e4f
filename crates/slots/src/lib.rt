// Where in each record of one size a channel's number lies, found once for all of them.
#![tactic(auto)]

mod kind;
mod record;
mod slot;
mod word;

pub use kind::{Float, Integer, Kind};
pub use record::{record_begin, word_at};
pub use slot::{Slot, SlotFound, find_slot, has_flag, is_fixed_number, is_valid_by, is_valid_in};
pub use word::{WordPlace, far_word, find_place, shift_of};
