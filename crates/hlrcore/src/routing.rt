//! The shard that an event is for (profile).

ghost use Rattle.std.specs.Prelude.{◌≡◌, ◌<◌, None};
ghost use Rattle.machine.specs.Routing.{shard_named, shard_of_subject, route_message, route_verdict, route};
ghost use Rattle.msgarena.specs.Seen.{message, seen};
ghost use Rattle.hlrcore.specs.Addressees.{subject_of_message, subject_of_verdict, IsAddressee};
ghost use Rattle.hlrcore.specs.Events.{event_of};
ghost use Rattle.hlrcore.specs.Shards.{directory_of};

use crate::event::Event;
use crate::subject::subject_of_begin;
use hlr_types::{Imsi, RemoteId};
use machine::numbers::SHARDS;
use msgarena::{ReadMessage, Verdict};
use records::{Directory, shard_of};

/// The shard of a destination id, which may not have the form of a local id.
#[tactic(auto, unfolding(machine::specs::Keys::shard_of_id))]
fn shard_named(id: &RemoteId) -> u8
    ensures value { result ≡ shard_named id.now }
    ensures small { result < 16 }
{
    let octets = id.as_slice();
    if octets.len() == 4 && octets[0] < SHARDS {
        octets[0]
    } else {
        0
    }
}

/// Whom an event is for: the shard, and the subscriber that a Begin is about. Only a Begin is about a subscriber by itself; later
/// messages are for the dialogue that they name.
#[derive(Drop)]
pub struct Addressee {
    pub shard: u8,
    pub subject: Option<Imsi>,
}

/// This shard, whoever the subscriber may be.
fn in_shard(shard: u8) -> Addressee
    ensures shard { result.shard ≡ shard }
    ensures subject { result.subject ≡ None }
{
    Addressee {
        shard,
        subject: None,
    }
}

/// The shard of the subscriber that a Begin is about; shard 0 without one.
#[tactic(auto, using(crate::proofs::ShardLemmas::same_shard))]
fn begin_about(subject: Option<Imsi>) -> Addressee
    ensures shard { result.shard ≡ shard_of_subject subject }
    ensures small { result.shard < 16 }
    ensures subject { result.subject ≡ subject }
{
    match subject {
        Some(imsi) => Addressee {
            shard: shard_of(&imsi),
            subject,
        },
        None => in_shard(0),
    }
}

fn addressee_of_message(directory: &Directory, said: &ReadMessage) -> Addressee
    ensures shard { result.shard ≡ route_message (directory_of directory.now) (message said.now) }
    ensures small { result.shard < 16 }
    ensures subject { result.subject
        ≡ subject_of_message (directory_of directory.now) (message said.now) }
{
    match said {
        ReadMessage::Begin { components, .. } => {
            begin_about(subject_of_begin(directory, components.as_slice()))
        }
        ReadMessage::Continue { destination, .. }
        | ReadMessage::End { destination, .. }
        | ReadMessage::Abort { destination } => in_shard(shard_named(destination)),
    }
}

fn addressee_of_verdict(directory: &Directory, verdict: &Verdict) -> Addressee
    ensures shard { result.shard ≡ route_verdict (directory_of directory.now) (seen verdict.now) }
    ensures small { result.shard < 16 }
    ensures subject { result.subject
        ≡ subject_of_verdict (directory_of directory.now) (seen verdict.now) }
{
    match verdict {
        Verdict::Read(message) => addressee_of_message(directory, message),
        Verdict::Discard | Verdict::Refuse(..) => in_shard(0),
    }
}

/// Whom an event is for: the shard, and the subscriber that a Begin is about. A Begin is for its subscriber's shard, as an operator's
/// change is; a Continue, End or Abort for the shard that its destination id names; whatever else is received for shard 0. A clock
/// value and an expiry name their shard.
#[tactic(auto, using(crate::proofs::ShardLemmas::same_shard))]
pub fn addressee_of(directory: &Directory, event: &Event) -> Addressee
    ensures found { IsAddressee (directory_of directory.now) (event_of event.now) result }
    ensures small { result.shard < 16 }
{
    match event {
        Event::Frame(indication) => addressee_of_verdict(directory, indication.verdict()),
        Event::Clock { shard, .. } | Event::Expire { shard } => in_shard(shard.number()),
        Event::Change { imsi, .. } => in_shard(shard_of(imsi)),
    }
}

/// The shard that an event is for.
pub fn route(directory: &Directory, event: &Event) -> u8
    ensures value { result ≡ route (directory_of directory.now) (event_of event.now) }
    ensures small { result < 16 }
{
    addressee_of(directory, event).shard
}
