//! Each verdict on a frame, down to its portions, and known frames written (ITU-T Q.773, 3.1).

use crate::outlines::tree;
use crate::tables::{check, is_written, octets};
use crate::told::spelled;
use bertree::read_tree;
use berwrite::OwnTree;
use bumpalo::Bump;
use bumpalo::collections::into_bump_slice;
use hlr_types::{RemoteId, Tid};
use q773_msg::{Message, OutMessage, Portions, Unread, abort_cause, read_message, write_message};
use std::alloc::{AllocError, Global};
use std::test::Fail;

/// Whether there is a dialogue portion, and how many components there are.
fn told_portions(alloc: Global, portions: &Portions) -> Result<String, AllocError> {
    let dialogue = if portions.dialogue.is_some() {
        "dialogue"
    } else {
        "-"
    };
    format!(in alloc; "{dialogue} {}", portions.components.count())
}

/// A message, its ids, and its portions.
fn told_message(alloc: Global, message: &Message) -> Result<String, AllocError> {
    match message {
        Message::Begin { origin, portions } => {
            let (origin, portions) = (
                spelled(alloc, origin.as_slice())?,
                told_portions(alloc, portions)?,
            );
            format!(in alloc; "begin {origin} {portions}")
        }
        Message::Continue {
            origin,
            destination,
            portions,
        } => {
            let origin = spelled(alloc, origin.as_slice())?;
            let destination = spelled(alloc, destination.as_slice())?;
            let portions = told_portions(alloc, portions)?;
            format!(in alloc; "continue {origin} {destination} {portions}")
        }
        Message::End {
            destination,
            portions,
        } => {
            let (destination, portions) = (
                spelled(alloc, destination.as_slice())?,
                told_portions(alloc, portions)?,
            );
            format!(in alloc; "end {destination} {portions}")
        }
        Message::Abort { destination } => {
            format!(in alloc; "aborted {}", spelled(alloc, destination.as_slice())?)
        }
    }
}

/// The answer: an Abort to an id with a cause, or nothing.
fn told_unread(alloc: Global, unread: &Unread) -> Result<String, AllocError> {
    match unread {
        Unread::Discard => String::from_str(alloc, "discarded"),
        Unread::Abort(to, cause) => {
            format!(in alloc; "abort {} {cause}", spelled(alloc, to.as_slice())?)
        }
    }
}

/// The reading of a frame of these octets, down to its portions.
fn told(alloc: Global, text: &str) -> Result<String, Fail> {
    let bump = Bump::new(alloc);
    let octets = octets(alloc, text)?;
    let told = match read_message(&read_tree(&bump, &octets)?) {
        Ok(message) => told_message(alloc, &message),
        Err(unread) => told_unread(alloc, &unread),
    };
    Ok(told?)
}

/// Messages and their portions.
const MESSAGES: &str = "
- a whole Begin
  | 62 47 48 04 00 00 00 01 6B 1E 28 1C 06 07 00 11 86 05 01 01 01 A0 11 60 0F 80 02 07 80 A1 09 06 07
    04 00 00 01 00 14 03 6C 1F A1 1D 02 01 01 02 01 2D 30 15 80 07 91 44 77 00 09 00 00 81 01 FF
    82 07 91 44 77 00 09 99 99
  | begin 00000001 dialogue 1
- a Begin without portions | 62 06 48 04 00 00 00 01 | begin 00000001 - 0
- an End without portions | 64 03 49 01 02 | end 02 - 0
- a Continue without portions | 65 09 48 04 00 00 00 01 49 01 02 | continue 00000001 02 - 0
- an Abort without a cause | 67 03 49 01 02 | aborted 02
- a dialogue portion | 62 05 48 01 01 6B 00 | begin 01 dialogue 0
- a component portion | 62 05 48 01 01 6C 00 | begin 01 - 0
- both | 62 07 48 01 01 6B 00 6C 00 | begin 01 dialogue 0
- two components | 62 09 48 01 01 6C 04 05 00 05 00 | begin 01 - 2
- the portions out of order | 62 07 48 01 01 6C 00 6B 00 | abort 01 3
- a portion twice | 62 07 48 01 01 6B 00 6B 00 | abort 01 3
- an element behind the portions | 62 09 48 01 01 6B 00 6C 00 05 00 | abort 01 3
- a primitive portion | 62 05 48 01 01 4B 00 | abort 01 3
- a portion of another tag | 62 05 48 01 01 05 00 | abort 01 3
";

/// Ids of 0 to 5 octets.
const IDS: &str = "
- no octet | 62 02 48 00 | discarded
- one | 62 03 48 01 09 | begin 09 - 0
- two | 62 04 48 02 09 08 | begin 0908 - 0
- three | 62 05 48 03 00 00 01 | begin 000001 - 0
- four | 62 06 48 04 00 00 00 01 | begin 00000001 - 0
- five | 62 07 48 05 00 00 00 00 01 | discarded
- a destination of no octet | 65 05 48 01 01 49 00 | abort 01 2
- a destination of one | 65 06 48 01 01 49 01 09 | continue 01 09 - 0
- a destination of four | 65 09 48 01 01 49 04 01 00 00 01 | continue 01 01000001 - 0
- a destination of five | 65 0A 48 01 01 49 05 01 00 00 00 01 | abort 01 2
- an End to no octet | 64 02 49 00 | discarded
- an Abort to five | 67 07 49 05 01 00 00 00 01 | discarded
";

/// Frames that are discarded.
const DISCARDED: &str = "
- a Unidirectional | 61 00 | discarded
- a Unidirectional with an originating id | 61 03 48 01 01 | discarded
- another message without an originating id | 63 06 49 04 00 00 00 01 | discarded
- another message with the originating id behind | 63 05 05 00 48 01 01 | discarded
- a message's number in a primitive element | 42 03 48 01 01 | discarded
- a Begin without an originating id | 62 00 | discarded
- a Begin with a destination id | 62 03 49 01 01 | discarded
- a Continue with its ids out of order | 65 06 49 01 01 48 01 01 | discarded
- a constructed originating id | 62 04 68 02 05 00 | discarded
- an End with another element | 64 05 49 01 01 05 00 | discarded
- an End with its portions out of order | 64 07 49 01 01 6C 00 6B 00 | discarded
- an Abort with components | 67 05 49 01 01 6C 00 | discarded
- an Abort with a cause and a dialogue portion | 67 08 49 01 01 4A 01 00 6B 00 | discarded
";

/// Frames that are answered with an Abort, and Aborts, which carry one element or none.
const ABORTS: &str = "
- another message | 63 06 48 04 00 00 00 01 | abort 00000001 0
- another element | 30 08 48 04 00 00 00 01 05 00 | abort 00000001 0
- a Continue without a destination | 65 06 48 04 00 00 00 01 | abort 00000001 2
- a Begin with another element | 62 08 48 04 00 00 00 01 05 00 | abort 00000001 3
- a Continue with another element | 65 0B 48 04 00 00 00 01 49 01 01 05 00 | abort 00000001 3
- an Abort with a cause | 67 06 49 01 01 4A 01 00 | aborted 01
- an Abort with an empty cause | 67 05 49 01 01 4A 00 | aborted 01
- an Abort with an empty dialogue portion | 67 05 49 01 01 6B 00 | aborted 01
- an Abort with a dialogue portion | 67 07 49 01 01 6B 02 05 00 | aborted 01
- an Abort with a constructed cause | 67 07 49 01 01 6A 02 05 00 | discarded
";

#[test]
fn frames(rt: HostRuntime) -> Result<(), Fail> {
    check(&rt, MESSAGES, told)?;
    check(&rt, IDS, told)?;
    check(&rt, DISCARDED, told)?;
    check(&rt, ABORTS, told)
}

/// An id of these octets.
fn id(octets: &[u8]) -> Result<RemoteId, Fail> {
    Ok(RemoteId::read(octets).ok_or("an id has 1 to 4 octets")?)
}

/// Aborts: the destination id, the cause, and the octets.
const SENT_ABORTS: [(&[u8], Option<u8>, &str); 3] = [
    (&[0, 0, 0, 1], Some(0), "67 09 49 04 00 00 00 01 4A 01 00"),
    (&[0, 0, 0, 0x0B], None, "67 06 49 04 00 00 00 0B"),
    (&[0, 0, 0x0B], Some(1), "67 08 49 03 00 00 0B 4A 01 01"),
];

/// The octets of an Abort.
fn abort(alloc: Global, to: RemoteId, cause: Option<u8>) -> Result<Vec<u8>, Fail> {
    let bump = Bump::new(alloc);
    let cause = match cause {
        Some(cause) => Some(abort_cause(&bump, cause)?),
        None => None,
    };
    Ok(write_message(alloc, &OutMessage::abort(&bump, to, cause)?)?)
}

#[test]
fn aborts_are_written(rt: HostRuntime) -> Result<(), Fail> {
    for (to, cause, text) in SENT_ABORTS {
        is_written(&rt, &abort(rt.alloc(), id(to)?, cause)?, text)?;
    }
    Ok(())
}

/// `count` results of Invoke 1 without a parameter.
fn finished<'a>(alloc: Global, bump: &'a Bump, count: usize) -> Result<&'a [OwnTree<'a>], Fail> {
    let mut components = Vec::new(bump);
    for _ in 0..count {
        components.push(tree(alloc, bump, "C2[ U2=01 ]")?)?;
    }
    Ok(into_bump_slice(components))
}

#[test]
fn openings_are_written(rt: HostRuntime) -> Result<(), Fail> {
    let alloc = rt.alloc();
    let bump = Bump::new(alloc);
    let local = Tid([1, 0, 0, 1]);
    let portion = Some(tree(alloc, &bump, "A11[ ]")?);
    let begin = OutMessage::begin(&bump, local, portion, finished(alloc, &bump, 1)?)?;
    let octets = write_message(alloc, &begin)?;
    is_written(
        &rt,
        &octets,
        "62 0F 48 04 01 00 00 01 6B 00 6C 05 A2 03 02 01 01",
    )?;
    let remote = id(&[0, 0, 0, 7])?;
    let next = OutMessage::continue_(&bump, local, remote, None, finished(alloc, &bump, 1)?)?;
    let octets = write_message(alloc, &next)?;
    is_written(
        &rt,
        &octets,
        "65 13 48 04 01 00 00 01 49 04 00 00 00 07 6C 05 A2 03 02 01 01",
    )
}

/// Ends: how many components they have, and the octets.
const SENT_ENDS: [(usize, &str); 2] = [
    (0, "64 06 49 04 00 00 00 07"),
    (
        2,
        "64 12 49 04 00 00 00 07 6C 0A A2 03 02 01 01 A2 03 02 01 01",
    ),
];

#[test]
fn ends_are_written(rt: HostRuntime) -> Result<(), Fail> {
    let alloc = rt.alloc();
    for (count, text) in SENT_ENDS {
        let remote = id(&[0, 0, 0, 7])?;
        let bump = Bump::new(alloc);
        let end = OutMessage::end(&bump, remote, None, finished(alloc, &bump, count)?)?;
        is_written(&rt, &write_message(alloc, &end)?, text)?;
    }
    Ok(())
}
