// One line of a channel over all records of a chain.
ghost use Rattle.std.specs.Prelude.{◌≡◌};
ghost use Rattle.definitions.specs.Report.{reported};
ghost use Rattle.block_replies.specs.Replies.{returned, returned_by};
ghost use Rattle.block_replies.specs.Channels.{channel_given};
ghost use Rattle.replies.specs.Values.{group_given};
ghost use Rattle.replies.specs.Reports.{report_c};

use block_replies::Mf4Channel;
use chain::FileAddress;
use replies::{Mf4Group, Mf4ReportReply};
use report::report_channel;

#[unsafe(no_mangle)]
pub extern "C" fn mf4_report(
    file: &[u8],
    start: u64,
    record_size: u64,
    group: Mf4Group,
    channel: Mf4Channel,
    buffer: &mut [u8],
) -> Mf4ReportReply
    ensures { returned result buffer.new ≡ returned_by report_c (reported file.now start record_size (group_given group) (channel_given channel) buffer.old) }
{
    report_channel(
        file,
        FileAddress(start),
        record_size,
        group.into(),
        channel.into(),
        buffer,
    )
    .into()
}
