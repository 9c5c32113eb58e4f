// How many bytes a field takes, whether they end inside the slice, and how many that would need.
ghost use Rattle.std.specs.Prelude.{◌≡◌, ◌+◌, ◌-◌, ◌≤◌, ltb};
ghost use Rattle.std.specs.Option.{SomeIff};
ghost use Rattle.definitions.specs.Reply.{told};
ghost use Rattle.definitions.specs.Channel.{bit_span, span_in};
ghost use Rattle.fields.specs.Meaning.{channel_meant};
ghost use Rattle.fields.specs.Form.{content_kind};

use crate::channel::Channel;
use crate::form::Content;

pub(crate) fn bit_span(channel: Channel) -> usize
    ensures { result ≡ bit_span (channel_meant channel) }
{
    let bits = channel.bit_offset as usize + channel.bit_count as usize;
    bits.div_ceil(8).max(1)
}

// A payload of `length` bytes is taken whole where it is no number.
pub(crate) fn content_span(
    payload: bool,
    content: Content,
    length: usize,
    channel: Channel,
) -> usize
    ensures { result ≡ span_in payload (content_kind content) length (channel_meant channel) }
{
    if payload {
        return length;
    }
    match content {
        Content::Undecoded => bit_span(channel),
        _ => channel.bit_count as usize / 8,
    }
}

// Where a field starts: so many bytes behind those skipped. The sum may be past every number that fits.
#[derive(Clone, Copy, Debug, PartialEq, Eq)]
pub struct FieldStart {
    pub skipped: usize,
    pub byte_offset: usize,
}

impl FieldStart {
    // How many bytes of a slice stand from there on, where it is inside or at the end
    fn left_in(self, length: usize) -> Option<usize>
        ensures { SomeIff result (self.skipped + self.byte_offset ≤ length) (length - (self.skipped + self.byte_offset)) }
    {
        length
            .checked_sub(self.skipped)?
            .checked_sub(self.byte_offset)
    }

    pub fn ends_outside(self, length: usize, span: usize) -> bool
        ensures { result ≡ ltb length (self.skipped + self.byte_offset + span) }
    {
        match self.left_in(length) {
            Some(left) => left < span,
            None => true,
        }
    }

    // The bytes, from its front, of a slice that would hold the field
    pub fn bytes_needed(self, span: usize) -> u64
        ensures { result ≡ told (self.skipped + self.byte_offset + span) }
    {
        let start = (self.skipped as u64).saturating_add(self.byte_offset as u64);
        start.saturating_add(span as u64)
    }
}
