// The search through a list of which each entry tells of a channel.
ghost use Rattle.std.specs.Prelude.{◌≡◌, map, position};
ghost use Rattle.definitions.specs.Channel as channels;
ghost use Rattle.definitions.specs.Overlap.{first_pair, overlap_of};
ghost use Rattle.fields.specs.Meaning.{channel_meant};
ghost use Rattle.overlaps.specs.Meaning.{is_other, shares_with, found_meant, overlap_reply};

use crate::answer::Pair;
use crate::entry::is_sound_number;
use crate::pair::share_a_bit;
use fields::Channel;
use refusals::Refusal;

// 26: a list may have so many channels.
const CHANNEL_LIMIT: usize = 256;

// The first entry that is no sound number
fn first_other<T: Copy + Into<Channel>>(list: &[T]) -> Option<usize>
    ghost meant: { T → channels.Channel }
    requires { (x : T) (c : _) → T.converts x c → channel_meant c ≡ meant x }
    ensures { result ≡ position (is_other meant) list.now }
{
    list.iter()
        .position(|entry| !is_sound_number((*entry).into()))
}

// The first entry whose field shares a bit with that of `channel`
fn partner<T: Copy + Into<Channel>>(channel: Channel, list: &[T]) -> Option<usize>
    ghost meant: { T → channels.Channel }
    requires { (x : T) (c : _) → T.converts x c → channel_meant c ≡ meant x }
    ensures { result ≡ position (shares_with meant (channel_meant channel)) list.now }
{
    list.iter()
        .position(|entry| share_a_bit(channel, (*entry).into()))
}

// The pair with the lowest first place, and of these that with the lowest second
fn first_pair<T: Copy + Into<Channel>>(list: &[T]) -> Option<Pair>
    ghost meant: { T → channels.Channel }
    requires { (x : T) (c : _) → T.converts x c → channel_meant c ≡ meant x }
    ensures { found_meant result ≡ first_pair 0 (map meant list.now) }
{
    for (first, entry) in list.iter().enumerate() {
        let next = first + 1;
        if let Some(behind) = partner((*entry).into(), &list[next..]) {
            return Some(Pair {
                first: first as u64,
                second: (next + behind) as u64,
            });
        }
    }
    None
}

// The first pair of a list's channels that share a bit. Every entry is tested before the first pair.
pub fn first_overlap<T: Copy + Into<Channel>>(list: &[T]) -> Result<Option<Pair>, Refusal>
    ghost meant: { T → channels.Channel }
    requires { (x : T) (c : _) → T.converts x c → channel_meant c ≡ meant x }
    ensures { overlap_reply result ≡ overlap_of (map meant list.now) }
{
    if CHANNEL_LIMIT < list.len() {
        return Err(Refusal::TooManyChannels);
    }
    if let Some(place) = first_other(list) {
        return Err(Refusal::NoFixedNumber(place as u64));
    }
    Ok(first_pair(list))
}
