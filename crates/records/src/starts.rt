//! Where to look for a word among entries that stand in the order of theirs.

use crate::record::Record;
use hlr_types::{Imsi, IsdnAddress};
use std::alloc::{AllocError, Global};
use std::ops::Range;

/// What is kept in the order of a word of its own.
pub(crate) trait Worded {
    /// Its word.
    fn word(&self) -> u64;
}

/// An entry of the directory has the word of its MSISDN.
impl Worded for (IsdnAddress, Imsi) {
    fn word(&self) -> u64 {
        self.0.word()
    }
}

/// A record has the word of its IMSI.
impl Worded for Record {
    fn word(&self) -> u64 {
        imsi_word(&self.imsi)
    }
}

/// The word of the digits of an IMSI. The order of words is that of IMSIs.
pub(crate) fn imsi_word(imsi: &Imsi) -> u64 {
    IsdnAddress::new(*imsi.digits()).word()
}

/// A table over entries in the order of their words: those of the directory, or the records of a shard. The words are cut
/// into stretches of one size, and for each stretch the table has the place where its entries begin. So a look-up reads
/// one line of memory of the table, and mostly one of the entries, where a search by halves reads another one at nearly
/// every step.
///
/// The table is a hint and no more. What is sought is compared with the entries that it points to, and what is not
/// among them is sought among all. So nothing needs to be known of it, and if its memory was refused it is empty.
///
/// Limitation: the stretches are of one size, with fewer than two for each entry, so that the table has no more than
/// 8 octets for each of them. If words are spread unevenly, say as MSISDNs or IMSIs are in blocks far from one another,
/// many share a stretch, and those are searched by halves.
#[derive(Drop)]
pub(crate) struct Starts {
    /// The first word, at which the first stretch begins.
    first: u64,
    /// Each stretch has as many words as two to this power.
    shift: u32,
    /// The place at which the entries of each stretch begin, and after them the place at which those of the last end.
    places: Vec<u32>,
}

impl Starts {
    /// A table with no stretch. Does not allocate.
    pub(crate) fn empty(alloc: Global) -> Starts {
        Starts {
            first: 0,
            shift: 0,
            places: Vec::new(alloc),
        }
    }

    /// The table over entries in the order of their words.
    pub(crate) fn of<T: Worded>(alloc: Global, entries: &[T]) -> Starts {
        let first = entries.first().map_or(0, Worded::word);
        let mut starts = Starts {
            first,
            shift: shift_of(first, entries),
            places: Vec::new(alloc),
        };
        let _is_filled = starts.fill(entries).is_ok();
        starts
    }

    /// Puts in the places of all stretches, or none if there is no memory for them, or if a place has no number.
    fn fill<T: Worded>(&mut self, entries: &[T]) -> Result<(), AllocError> {
        let (Some(last), Ok(count)) = (entries.last(), u32::try_from(entries.len())) else {
            return Ok(());
        };
        let last_stretch = self.stretch_of(last.word());
        self.places.reserve_exact(last_stretch.saturating_add(2))?;
        for (place, entry) in (0..count).zip(entries) {
            let stretch = self.stretch_of(entry.word());
            self.places.resize(stretch.saturating_add(1), place)?;
        }
        let stretches = self.places.len();
        self.places.resize(stretches.saturating_add(1), count)
    }

    /// The number of the stretch that a word is in. For one before the first it is greater than all of the table.
    fn stretch_of(&self, word: u64) -> usize {
        let distance = word.wrapping_sub(self.first);
        distance.wrapping_shr(self.shift) as usize
    }

    /// The places of the entries of the stretch that a word is in, if the table has it.
    pub(crate) fn near(&self, word: u64) -> Option<Range<usize>> {
        let [start, end, ..] = self.places.get(self.stretch_of(word)..)? else {
            return None;
        };
        Some(*start as usize..*end as usize)
    }
}

/// The least shift with which there are fewer than two stretches for each entry.
fn shift_of<T: Worded>(first: u64, entries: &[T]) -> u32 {
    let last = entries.last().map_or(0, Worded::word);
    let span = last.saturating_sub(first);
    let most = (entries.len() as u64).saturating_mul(2).saturating_sub(1);
    (0..64)
        .find(|shift| span.wrapping_shr(*shift) < most)
        .unwrap_or(0)
}
