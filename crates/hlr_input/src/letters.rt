//! The letters of a script.

ghost use Rattle.std.specs.Prelude.{◌≡◌, [], OnOk, OnErr};

use frames::tags;
use hlr_types::Tid;
use std::alloc::{AllocError, Global};
use std::marker::Model;

/// The number of letters, A to Z.
pub const MAX_LETTERS: usize = 26;

/// The identifier octet of a Begin: application, constructed (X.690, 8.1.2).
const BEGIN: u8 = 0x60 + tags::BEGIN.number as u8;

/// The identifier octet of a Continue: application, constructed.
const CONTINUE: u8 = 0x60 + tags::CONTINUE.number as u8;

/// The identifier octet of an originating transaction id: application, primitive.
const ORIGIN: u8 = 0x40 + tags::ORIGIN.number as u8;

/// The local ids that the letters stand for: the first 26 different ones that were printed, in that order (profile).
#[derive(Drop)]
pub struct Letters {
    ids: Vec<Tid>,
}

impl Model for Letters {
    ghost use Rattle.std.specs.Prelude.{List, ℕ};

    ghost Value = { List (List ℕ) };

    ghost view = { λ l. l.ids.items };
}

impl Letters {
    ghost use Rattle.hlr_input.specs.Letters.{noted, originating_id};

    /// No id yet.
    pub fn new(alloc: Global) -> Letters
        ensures { result ≡ [] }
    {
        Letters {
            ids: Vec::new(alloc),
        }
    }

    /// The ids, beginning with that of A.
    pub fn ids(&self) -> &[Tid]
        ensures { result.now ≡ self.now }
    {
        &self.ids
    }

    /// Records the local id that a printed frame carries: the originating id of a Begin or a Continue (Q.773), if it has four
    /// octets and a letter is left.
    pub fn note(&mut self, frame: &[u8]) -> Result<(), AllocError>
        ensures ok { OnOk result (self.new ≡ noted self.old (originating_id frame.now)) }
        ensures err { OnErr result (self.new ≡ self.old) }
    {
        // Once each letter has an id, nothing of a frame is looked at any more.
        if self.ids.len() >= MAX_LETTERS {
            return Ok(());
        }
        let Some(id) = originating_id(frame) else {
            return Ok(());
        };
        if is_among(&id, &self.ids) {
            return Ok(());
        }
        self.ids.push(id)?;
        Ok(())
    }
}

ghost use Rattle.std.specs.List.{list_any};
ghost use Rattle.hlr_input.specs.Letters.{originating_id, id_in, is_same};

fn is_among(id: &Tid, ids: &[Tid]) -> bool
    ensures { result ≡ list_any (λ i. is_same i id.now) ids.now }
{
    ids.contains(id)
}

/// The originating transaction id of a Begin or a Continue (Q.773), if it has four octets.
fn originating_id(frame: &[u8]) -> Option<Tid>
    ensures { result ≡ originating_id frame.now }
{
    let (tag, rest) = frame.split_first()?;
    if *tag != BEGIN && *tag != CONTINUE {
        return None;
    }
    let (length, rest) = rest.split_first()?;
    let more = if *length < 0x80 { 0 } else { *length - 0x80 };
    id_in(rest.get(usize::from(more)..)?)
}

fn id_in(contents: &[u8]) -> Option<Tid>
    ensures { result ≡ id_in contents.now }
{
    match contents {
        [ORIGIN, 0x04, a, b, c, d, ..] => Some(Tid([*a, *b, *c, *d])),
        _ => None,
    }
}
