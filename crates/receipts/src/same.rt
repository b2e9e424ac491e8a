//! Whether events, and frames, are the same.

ghost use Rattle.std.specs.Prelude.{◌≡◌, ◌↔◌, IsTrue, map};
ghost use Rattle.hlrcore.specs.Events.{change, raw_event};
ghost use Rattle.hlrcore.specs.Frames.{raw_out};

use hlrcore::{Change, Out, OutList, RawEvent};

/// Whether two changes are the same.
fn same_change(left: &Change, right: &Change) -> bool
    ensures { IsTrue result ↔ (change left.now ≡ change right.now) }
{
    match (left, right) {
        (Change::Codes(codes), Change::Codes(others)) => codes.as_slice() == others.as_slice(),
        (Change::Withdraw, Change::Withdraw) => true,
        _ => false,
    }
}

/// Whether two events are the same.
pub(crate) fn same_event(left: &RawEvent, right: &RawEvent) -> bool
    ensures { IsTrue result ↔ (raw_event left.now ≡ raw_event right.now) }
{
    match (left, right) {
        (
            RawEvent::Frame { from, octets },
            RawEvent::Frame {
                from: source,
                octets: others,
            },
        ) => from == source && octets.as_slice() == others.as_slice(),
        (
            RawEvent::Clock { shard, now },
            RawEvent::Clock {
                shard: other,
                now: time,
            },
        ) => shard == other && now == time,
        (RawEvent::Expire { shard }, RawEvent::Expire { shard: other }) => shard == other,
        (
            RawEvent::Change { imsi, change },
            RawEvent::Change {
                imsi: other,
                change: asked,
            },
        ) => imsi == other && same_change(change, asked),
        _ => false,
    }
}

/// Whether two frames are the same, and go to the same address.
fn same_out(left: &Out, right: &Out) -> bool
    ensures { IsTrue result ↔ (raw_out left.now ≡ raw_out right.now) }
{
    left.to == right.to && left.octets.as_slice() == right.octets.as_slice()
}

/// Whether two lists of frames are the same.
fn same_frames(left: &[Out], right: &[Out]) -> bool
    ensures { IsTrue result ↔ (map raw_out left.now ≡ map raw_out right.now) }
{
    if left.len() != right.len() {
        return false;
    }
    for index in 0..left.len() {
        if !same_out(&left[index], &right[index]) {
            return false;
        }
    }
    true
}

/// Whether the same frames were sent, in the same order.
pub(crate) fn same_outs(left: &OutList, right: &OutList) -> bool
    ensures { IsTrue result ↔ (left.now ≡ right.now) }
{
    same_frames(left.as_slice(), right.as_slice())
}
