//! The records while a records file is read.

ghost use Rattle.std.specs.Prelude.{◌≡◌, IfOk, OnErr, is_some, not};
ghost use Rattle.std.specs.Bool.{OnTrue, OnFalse};
ghost use Rattle.std.specs.FinMap as map;

use crate::record::Record;
use crate::records::Records;
use hlr_types::Imsi;
use std::alloc::{AllocError, Global};
use std::collections::BTreeSet;
use std::marker::Model;

/// The records of the lines read so far, in the order of the lines, with the set of their IMSIs. They are sorted once, at the
/// end: a tree of records would take more than twice the memory.
#[derive(Drop)]
pub(crate) struct Unordered {
    alloc: Global,
    records: Vec<Record>,
    imsis: BTreeSet<Imsi>,
}

impl Model for Unordered {
    ghost use Rattle.records.specs.Maps.{RecordMap, record_map_code};
    ghost use Rattle.records.specs.Loaded.{by_imsi};
    ghost use Rattle.records.specs.Ordered.{AreApartAs};

    ghost Value = { RecordMap };

    ghost coded = { record_map_code };

    ghost view = { λ u. by_imsi u.records.items };

    ghost invariant = { λ u. AreApartAs u.imsis.keys u.records.items };
}

impl Unordered {
    /// No record, and room for so many.
    pub(crate) fn with_room(alloc: Global, room: usize) -> Result<Unordered, AllocError>
        ensures { IfOk result (λ unordered. unordered ≡ map.empty) }
    {
        Ok(Unordered {
            alloc,
            records: Vec::with_capacity(alloc, room)?,
            imsis: BTreeSet::new(alloc),
        })
    }

    /// Adds a record if its IMSI is new, and tells whether it is.
    pub(crate) fn add(&mut self, subscriber: Record) -> Result<bool, AllocError>
        ensures is_new { IfOk result
            (λ is_new. is_new ≡ not (is_some (map.get self.old subscriber.imsi))) }
        ensures added { IfOk result (λ is_new.
            OnTrue is_new (self.new ≡ map.insert self.old subscriber.imsi subscriber)) }
        ensures stays { IfOk result (λ is_new. OnFalse is_new (self.new ≡ self.old)) }
        ensures err { OnErr result (self.new ≡ self.old) }
    {
        self.records.reserve(1)?;
        let is_new = self.imsis.insert(subscriber.imsi)?;
        if is_new {
            self.records.push_reserved(subscriber);
        }
        Ok(is_new)
    }

    /// The records in the order of their IMSIs.
    pub(crate) fn finish(self) -> Records
        ensures { result ≡ self }
    {
        let mut records = self.records;
        records.sort_unstable_by_key(|record| record.imsi);
        Records::of_sorted(self.alloc, records)
    }
}
