//! The subscribers of a shard.

ghost use Rattle.std.specs.Prelude.{◌≡◌, ◌<◌, ◌↔◌, ◌==◌, IsSome, IsTrue, IfSome, IfNone, IfOk, OnOk, option_copied, count_by, map as each, length, replicate, slice_index_or};
ghost use Rattle.std.specs.Bool.{OnTrue};
ghost use Rattle.std.specs.FinMap as map;
ghost use Rattle.records.specs.Maps.{AreByImsi, shard_of};
ghost use Rattle.records.specs.Loaded.{by_imsi, imsi_entry};
ghost use Rattle.records.specs.Ordered.{AreDistinct, AreInOrder, IsPlaceOf, IsAbove};
ghost use Rattle.records.specs.Parts.{AreParts, with_one};

use crate::record::Record;
use crate::same::are_same;
use crate::shard::shard_of;
use crate::starts::{Starts, imsi_word};
use hlr_types::{Imsi, Register, ShortList, Tid};
use std::alloc::{AllocError, Global};
use std::marker::Model;

/// Records by IMSI. Who is a subscriber does not change, so they are kept in order, and found by a table or by halves.
///
/// Limitation: the records of a whole file have no table, nor has a copy, in which a journal begins: nobody is looked up in them.
#[derive(Drop)]
pub struct Records {
    alloc: Global,
    in_order: Vec<Record>,
    /// Where to look for an IMSI among them.
    starts: Starts,
}

impl Model for Records {
    ghost use Rattle.records.specs.Maps.{RecordMap, record_map_code};
    ghost use Rattle.records.specs.Loaded.{by_imsi};
    ghost use Rattle.records.specs.Ordered.{AreInOrder};

    ghost Value = { RecordMap };

    ghost coded = { record_map_code };

    ghost view = { λ r. by_imsi r.in_order.items };

    ghost invariant = { λ r. AreInOrder r.in_order.items };
}

impl Records {
    ghost use Rattle.records.specs.Subscriber.{Subscriber, IsRecord, IsPlace, AreAllowed, placed, allowed, as_withdrawn};
    ghost use Rattle.records.specs.Maps.{part_of};

    /// An empty map with room for so many records.
    fn with_room(alloc: Global, room: usize) -> Result<Records, AllocError>
        ensures { IfOk result (λ records. records ≡ map.empty) }
    {
        Ok(Records {
            alloc,
            in_order: Vec::with_capacity(alloc, room)?,
            starts: Starts::empty(alloc),
        })
    }

    /// These records, with no table.
    pub(crate) fn of_sorted(alloc: Global, in_order: Vec<Record>) -> Records
        requires { AreInOrder in_order.items }
        ensures { result ≡ by_imsi in_order.items }
    {
        Records {
            alloc,
            in_order,
            starts: Starts::empty(alloc),
        }
    }

    /// These records, in whatever order, with no table. `None` if two have one IMSI.
    pub(crate) fn of_unsorted(alloc: Global, all: Vec<Record>) -> Option<Records>
        ensures value { IfSome result (λ records. records ≡ by_imsi all.items) }
        ensures distinct { IfSome result (λ _. AreDistinct (each imsi_entry all.items)) }
    {
        let mut in_order = all;
        in_order.sort_unstable_by_key(|record| record.imsi);
        if !ascend(&in_order) {
            return None;
        }
        Some(Records::of_sorted(alloc, in_order))
    }

    /// Appends a record whose IMSI comes after all others. The table stays as it is, and does not point to the record.
    fn push(&mut self, subscriber: Record) -> Result<(), AllocError>
        requires { IsAbove self.old subscriber.imsi }
        ensures { OnOk result (self.new ≡ map.insert self.old subscriber.imsi subscriber) }
    {
        self.in_order.push(subscriber)?;
        Ok(())
    }

    /// The record with this IMSI.
    pub fn get(&self, imsi: &Imsi) -> Option<&Record>
        ensures found { option_copied result ≡ map.get self.now imsi.now }

        // The facts of every record.
        ensures facts { IfSome result (λ found. IsRecord found.now) }
        ensures own { IfSome result (λ found. found.now.imsi ≡ imsi.now) }
    {
        let Some(at) = place_of(&self.in_order, &self.starts, imsi) else {
            return None;
        };
        let found = &self.in_order[at];
        let _facts = &found.codes;
        Some(found)
    }

    /// Sets the serving register, the purged flag and the current update of a record.
    pub fn set(
        &mut self,
        imsi: &Imsi,
        register: Option<Register>,
        purged: bool,
        current: Option<Tid>,
    )
        requires known { IsSome (map.get self.old imsi.now) }
        requires place { (s : Subscriber) → map.get self.old imsi.now ≡ Some s
            → IsPlace s.withdrawn register purged current }
        ensures { (s : Subscriber) → map.get self.old imsi.now ≡ Some s
            → self.new ≡ map.insert self.old imsi.now (placed s register purged current) }
    {
        let Some(at) = place_of(&self.in_order, &self.starts, imsi) else {
            return;
        };
        let found = &mut self.in_order[at];
        found.place(register, purged, current);
    }

    /// Sets the codes of a record, and whether it is withdrawn. Does not allocate.
    pub fn put(&mut self, imsi: &Imsi, codes: ShortList<32>, withdrawn: bool)
        requires known { IsSome (map.get self.old imsi.now) }
        requires codes { AreAllowed codes }
        requires place { (s : Subscriber) → map.get self.old imsi.now ≡ Some s
            → IsPlace withdrawn s.register s.purged s.current }
        ensures { (s : Subscriber) → map.get self.old imsi.now ≡ Some s
            → self.new ≡ map.insert self.old imsi.now (allowed s codes withdrawn) }
    {
        let Some(at) = place_of(&self.in_order, &self.starts, imsi) else {
            return;
        };
        let found = &mut self.in_order[at];
        found.allow(codes, withdrawn);
    }

    /// Withdraws a subscriber: no register and no current update any more. Does not allocate.
    pub fn withdraw(&mut self, imsi: &Imsi)
        requires known { IsSome (map.get self.old imsi.now) }
        ensures { (s : Subscriber) → map.get self.old imsi.now ≡ Some s
            → self.new ≡ map.insert self.old imsi.now (as_withdrawn s) }
    {
        let Some(at) = place_of(&self.in_order, &self.starts, imsi) else {
            return;
        };
        let found = &mut self.in_order[at];
        found.withdraw();
    }

    /// All records, ordered by IMSI as text.
    pub fn list(&self) -> Result<Vec<&Record>, AllocError>
        ensures { IfOk result (λ list. each (λ found. found.now) list.items ≡ map.values self.now) }
    {
        all(self.alloc, &self.in_order)
    }

    /// The records of a shard.
    pub(crate) fn part(&self, shard: u8) -> Result<Records, AllocError>
        requires { shard < 16 }
        ensures { IfOk result (λ part. part ≡ part_of self.now shard) }
    {
        let mut part = Records::with_room(self.alloc, count_of(&self.in_order, shard))?;
        for found in &self.in_order {
            if shard_of(&found.imsi) == shard {
                part.push(found.clone()?)?;
            }
        }
        part.make_starts();
        Ok(part)
    }

    /// The records of each shard, none of them copied.
    pub(crate) fn into_parts(self) -> Result<Vec<Records>, AllocError>
        ensures { IfOk result (λ parts. AreParts self parts.items) }
    {
        share_out(self.alloc, self.in_order)
    }

    /// Law: each record is under its own IMSI, and they are in the order of these.
    pub fn law_in_order(&self)
        ensures own { AreByImsi self.now }
        ensures order { AreInOrder (map.values self.now) }
        ensures whole { by_imsi (map.values self.now) ≡ self.now }
    {
        let _in_order = &self.in_order;
    }

    /// Whether the records are equal.
    pub fn same(&self, other: &Records) -> Result<bool, AllocError>
        ensures { IfOk result (λ same. IsTrue same ↔ (self.now ≡ other.now)) }
    {
        Ok(are_same(&self.in_order, &other.in_order))
    }

    /// An equal copy, with no table.
    pub fn try_copy(&self) -> Result<Records, AllocError>
        ensures { IfOk result (λ copy. copy ≡ self.now) }
    {
        Ok(Records::of_sorted(self.alloc, self.in_order.clone()?))
    }

    /// Makes the table. If its memory is refused there is none.
    fn make_starts(&mut self)
        ensures { self.new ≡ self.old }
    {
        self.starts = Starts::of(self.alloc, &self.in_order);
    }
}

/// Whether each IMSI comes before the next one.
fn ascend(records: &[Record]) -> bool
    ensures { OnTrue result (AreInOrder records.now) }
{
    records.is_sorted_by(|record, next| record.imsi < next.imsi)
}

/// Where the record with this IMSI is.
fn place_of(records: &[Record], starts: &Starts, imsi: &Imsi) -> Option<usize>
    requires { AreInOrder records.now }
    ensures found { IfSome result (λ at. IsPlaceOf records.now imsi.now at) }
    ensures none { IfNone result (map.get (by_imsi records.now) imsi.now ≡ None) }
{
    if let Some(at) = place_near(records, starts, imsi) {
        return Some(at);
    }
    place_in(records, imsi)
}

/// The same if the table points to the record. Otherwise `None`, also if there is one.
fn place_near(records: &[Record], starts: &Starts, imsi: &Imsi) -> Option<usize>
    ensures { IfSome result (λ at. IsPlaceOf records.now imsi.now at) }
{
    let places = starts.near(imsi_word(imsi))?;
    let start = places.start;
    let at = place_in(records.get(places)?, imsi)?;
    Some(start + at)
}

/// Where the record with this IMSI is, which is sought by halves. A record that is found is the one that is sought, also
/// if the records are in no order.
fn place_in(records: &[Record], imsi: &Imsi) -> Option<usize>
    ensures found { IfSome result (λ at. IsPlaceOf records.now imsi.now at) }
    ensures none { AreInOrder records.now
        → IfNone result (map.get (by_imsi records.now) imsi.now ≡ None) }
{
    match records.binary_search_by_key(imsi, |record| record.imsi) {
        Ok(at) => Some(at),
        Err(_) => None,
    }
}

/// How many records a shard has.
fn count_of(records: &[Record], shard: u8) -> usize
    ensures { result ≡ count_by (λ s. shard_of s.imsi == shard) records.now }
{
    records
        .iter()
        .filter(|record| shard_of(&record.imsi) == shard)
        .count()
}

/// How many records each shard has.
fn counts_of(records: &[Record]) -> [usize; 16] {
    let mut counts = [0usize; 16];
    for record in records {
        let shard = usize::from(shard_of(&record.imsi));
        counts[shard] = counts[shard].saturating_add(1);
    }
    counts
}

/// An empty map for each shard, with room for those of these records that are its own.
fn no_records(alloc: Global, records: &[Record]) -> Result<Vec<Records>, AllocError>
    ensures { IfOk result (λ parts. parts.items ≡ replicate 16 map.empty) }
{
    let counts = counts_of(records);
    let mut parts = Vec::with_capacity(alloc, 16)?;
    for shard in 0..16u8 {
        parts.push(Records::with_room(alloc, counts[usize::from(shard)])?)?;
    }
    Ok(parts)
}

/// The parts of the shards, of these records.
fn share_out(alloc: Global, in_order: Vec<Record>) -> Result<Vec<Records>, AllocError>
    requires { AreInOrder in_order.items }
    ensures { IfOk result (λ parts. AreParts (by_imsi in_order.items) parts.items) }
{
    let mut parts = no_records(alloc, &in_order)?;
    for found in in_order {
        add_to_own(&mut parts, found)?;
    }
    make_all_starts(&mut parts);
    Ok(parts)
}

/// Makes the table of each part.
fn make_all_starts(parts: &mut [Records])
    ensures { parts.new ≡ parts.old }
{
    for part in parts {
        part.make_starts();
    }
}

/// Appends a record to the part of its shard.
fn add_to_own(parts: &mut Vec<Records>, found: Record) -> Result<(), AllocError>
    requires sixteen { length parts.old.items ≡ 16 }
    requires above { IsAbove (slice_index_or parts.old.items (shard_of found.imsi) map.empty)
        found.imsi }
    ensures { OnOk result (parts.new.items ≡ with_one parts.old.items found) }
{
    let shard = usize::from(shard_of(&found.imsi));
    parts[shard].push(found)
}

fn all(alloc: Global, records: &[Record]) -> Result<Vec<&Record>, AllocError>
    ensures { IfOk result (λ list. each (λ found. found.now) list.items ≡ records.now) }
{
    records.iter().collect(alloc)
}
