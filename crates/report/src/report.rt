// The line of a channel over all records of a chain.
ghost use Rattle.std.specs.Prelude.{◌≡◌, true, ◌/◌, length, Ok};
ghost use Rattle.definitions.specs.Reply.{answer};
ghost use Rattle.definitions.specs.Channel.{is_fixed_number, area_of};
ghost use Rattle.definitions.specs.Chain.{id_dt, joined};
ghost use Rattle.definitions.specs.Report.{first_records, readings, report_of, last_record_in, reported};
ghost use Rattle.chain.specs.Walk.{Walked};
ghost use Rattle.fields.specs.Meaning.{channel_meant, group_meant};
ghost use Rattle.tally.specs.Meaning.{report_meant};
ghost use Rattle.report.specs.Meaning.{reported_by, InWords};

use crate::layout::Layout;
use crate::walk::tally_records;
use chain::{DataBlock, DataPosition, FileAddress, Place, locate_data};
use fields::{Channel, Group, check_area};
use records::{bad_size, window};
use refusals::Refusal;
use slots::{SlotFound, find_slot, is_fixed_number};
use tally::{Report, invalid_report, report_of, valueless_report};

// A channel of n records: where the walk along their chain begins, and what is known of group and channel
#[derive(Clone, Copy)]
struct Asked {
    begin: Place,
    n: u64,
    group: Group,
    channel: Channel,
}

impl Asked {
    // All records have a value or none has, so the bytes of the buffer, which is one record long, stand for any record: they are
    // asked before the first one is read.
    fn line(self, file: &[u8], buffer: &mut [u8]) -> Report
        requires { Walked id_dt file.now self.begin × (self.begin.position.0 ≡ 0) × (is_fixed_number (channel_meant self.channel) ≡ true) × (area_of (length buffer.old) (group_meant self.group) (channel_meant self.channel) ≡ answer tt) }
        ensures { (w : Walked id_dt file.now self.begin) → self.n ≡ length (joined file.now w.blocks) / length buffer.old → report_meant result ≡ report_of (readings (group_meant self.group) (channel_meant self.channel) (first_records self.n (length buffer.old) (joined file.now w.blocks))) }
    {
        match find_slot(buffer, self.group, self.channel) {
            SlotFound::NoValue => valueless_report(self.n),
            SlotFound::AllInvalid => invalid_report(self.n),
            SlotFound::Found(slot) => {
                let layout = Layout {
                    size: buffer.len(),
                    slot,
                };
                let tally = tally_records(file, self.begin, layout, buffer);
                report_of(slot.number, tally)
            }
        }
    }

    // And the last record into the buffer, where there is one
    fn line_and_last(self, file: &[u8], buffer: &mut [u8]) -> Report
        requires { ((w : Walked id_dt file.now self.begin) × (self.n ≡ length (joined file.now w.blocks) / length buffer.old)) × (self.begin.position.0 ≡ 0) × (is_fixed_number (channel_meant self.channel) ≡ true) × (area_of (length buffer.old) (group_meant self.group) (channel_meant self.channel) ≡ answer tt) }
        ensures { (w : Walked id_dt file.now self.begin) → self.n ≡ length (joined file.now w.blocks) / length buffer.old → (report_meant result ≡ report_of (readings (group_meant self.group) (channel_meant self.channel) (first_records self.n (length buffer.old) (joined file.now w.blocks)))) × (buffer.new ≡ last_record_in self.n (length buffer.old) (joined file.now w.blocks) buffer.old) }
    {
        if self.n == 0 {
            return valueless_report(0);
        }
        let last = (self.n - 1) * buffer.len() as u64;
        let report = self.line(file, buffer);
        window(file, self.begin, &DataBlock::ID, DataPosition(last), buffer);
        report
    }
}

// The line as an answer. A function apart, since that the low word of its sum is one word is known of a line that is handed in.
fn lined(report: Report) -> Result<Report, Refusal>
    ensures { (result ≡ Ok report) × InWords result }
{
    Ok(report)
}

// The chain is accepted first, and the description then, so that a refusal leaves the buffer alone.
pub fn report_channel(
    file: &[u8],
    start: FileAddress,
    record_size: u64,
    group: Group,
    channel: Channel,
    buffer: &mut [u8],
) -> Result<Report, Refusal>
    ensures { (reported_by result buffer.new ≡ reported file.now start.0 record_size (group_meant group) (channel_meant channel) buffer.old) × InWords result }
{
    if bad_size(record_size, buffer.len() as u64) {
        return Err(Refusal::BadRecordSize);
    }
    let located = locate_data(file, start, &DataBlock::ID, DataPosition(0))?;
    if !is_fixed_number(channel) {
        return Err(Refusal::NoNumberChannel);
    }
    let size = record_size as usize;
    check_area(size, group, channel)?;
    let asked = Asked {
        begin: located.place,
        n: located.total.0 / record_size,
        group,
        channel,
    };
    let report = asked.line_and_last(file, &mut buffer[..size]);
    lined(report)
}
