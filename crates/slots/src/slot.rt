// A channel's number in records of one size: where its field lies, and which bit tells that it is invalid.
ghost use Rattle.std.specs.Prelude.{◌≡◌, true, false, not, ◌≤◌, ◌<◌, length, eqb};
ghost use Rattle.definitions.specs.Reply.{answer};
ghost use Rattle.definitions.specs.Channel.{is_fixed_number, area_of};
ghost use Rattle.fields.specs.Meaning.{channel_meant, group_meant};
ghost use Rattle.slots.specs.Slots.{slot_valid, SlotTold};
ghost use Rattle.slots.specs.Known.{FlagAsked, FlagOf};

use bit_fields::cut;
use fields::{Channel, FieldStart, Form, Group, Number, find_field, form_of};

// Whether it lies in a record is asked where it is read and no invariant: what `has_flag` promises holds of any slot.
#[derive(Clone, Copy)]
pub struct Slot {
    pub number: Number,
    pub big_endian: bool,
    pub at: usize,
    pub offset: u32,
    pub count: u32,
    // the byte and its bit that is set in a record whose value is invalid; bit 8 where none tells. That is no Option, since it would
    // take a test more a record, and `slot_valid` asks one bit
    pub flag_at: usize,
    pub flag_bit: u32,
}

#[derive(Clone, Copy)]
pub enum SlotFound {
    Found(Slot),
    AllInvalid,
    NoValue,
}

#[derive(Clone, Copy)]
pub(crate) struct Flag {
    pub(crate) at: usize,
    pub(crate) bit: u32,
}

// A number in the record itself
pub fn is_fixed_number(channel: Channel) -> bool
    ensures { result ≡ is_fixed_number (channel_meant channel) }
{
    let Form::Number(_, _) = form_of(channel.data_type) else {
        return false;
    };
    !channel.is_variable_length()
}

// The bit that tells of a channel whose values are not all invalid. Where none does they are all valid, as bit 8 of a byte is clear.
fn find_flag(group: Group, channel: Channel) -> Flag
    requires { FlagAsked (group_meant group) (channel_meant channel) }
    ensures { FlagOf (group_meant group) (channel_meant channel) result.at result.bit }
{
    if cut(channel.flags as u64, 1, 1) == 0 {
        return Flag { at: 0, bit: 8 };
    }
    let position = channel.pos_invalidation_bit;
    let start = group.record_id_size + group.data_bytes as usize;
    Flag {
        at: start + (position / 8) as usize,
        bit: position % 8,
    }
}

// Of any record of the size: its bytes play no part.
pub fn find_slot(record: &[u8], group: Group, channel: Channel) -> SlotFound
    requires { (is_fixed_number (channel_meant channel) ≡ true) × (area_of (length «record».now) (group_meant group) (channel_meant channel) ≡ answer tt) }
    ensures { SlotTold (length «record».now) (group_meant group) (channel_meant channel) result }
{
    let form = form_of(channel.data_type);
    let Form::Number(number, big_endian) = form else {
        return SlotFound::NoValue;
    };
    let start = FieldStart {
        skipped: group.record_id_size,
        byte_offset: channel.byte_offset as usize,
    };
    let Ok(field) = find_field(record, start, false, form, channel) else {
        return SlotFound::NoValue;
    };
    // bit 0: every value is invalid
    if cut(channel.flags as u64, 0, 1) == 1 {
        return SlotFound::AllInvalid;
    }
    let flag = find_flag(group, channel);
    SlotFound::Found(Slot {
        number,
        big_endian,
        at: field.at,
        offset: channel.bit_offset as u32,
        count: channel.bit_count,
        flag_at: flag.at,
        flag_bit: flag.bit,
    })
}

pub fn is_valid_in(record: &[u8], slot: Slot) -> bool
    requires { (slot.flag_at < length «record».now) × (slot.flag_bit ≤ 8) }
    ensures { result ≡ slot_valid slot «record».now }
{
    let at = slot.flag_at;
    cut(record[at] as u64, slot.flag_bit, 1) == 0
}

// Whether any record can be invalid
pub fn has_flag(slot: Slot) -> bool
    ensures { result ≡ not (eqb slot.flag_bit 8) }
{
    slot.flag_bit != 8
}

// Validity, where it is known beforehand whether any record can be invalid
pub fn is_valid_by(flagged: bool, record: &[u8], slot: Slot) -> bool
    requires { (slot.flag_at < length «record».now) × (slot.flag_bit ≤ 8) × (flagged ≡ false → slot.flag_bit ≡ 8) }
    ensures { result ≡ slot_valid slot «record».now }
{
    if flagged {
        return is_valid_in(record, slot);
    }
    true
}
