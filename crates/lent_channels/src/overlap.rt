// The first two channels of a lent list whose fields share a bit of the record.
ghost use Rattle.std.specs.Prelude.{◌≡◌, map};
ghost use Rattle.definitions.specs.Overlap.{overlap_of};
ghost use Rattle.block_replies.specs.Channels.{channel_given};
ghost use Rattle.replies.specs.Overlaps.{overlap_c};

use block_replies::Mf4Channel;
use replies::Mf4OverlapReply;

// An entry of the lent list gives its channel, and `overlaps` decides.
pub fn first_overlap(list: &[Mf4Channel]) -> Mf4OverlapReply
    ensures { result ≡ overlap_c (overlap_of (map channel_given list.now)) }
{
    overlaps::first_overlap(list).into()
}
