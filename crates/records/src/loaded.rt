//! The contents of a records file.

ghost use Rattle.std.specs.Prelude.{◌≡◌, ◌<◌, None, IfOk, IfSome};
ghost use Rattle.std.specs.Bool.{OnTrue};
ghost use Rattle.std.specs.Arc.{arc_value};
ghost use Rattle.std.specs.Prelude.{map as each};
ghost use Rattle.records.specs.Loaded.{msisdn_entry};

use crate::directory::Directory;
use crate::directory_tree::DirectoryTree;
use crate::record::Record;
use crate::records::Records;
use crate::unordered::Unordered;
use hlr_types::{Imsi, IsdnAddress};
use std::alloc::{AllocError, Global};
use std::marker::Model;
use std::sync::Arc;

/// The contents of a records file: the HLR number, the records, and the directory, which all shards share.
///
/// A file never has an update in progress, so no record has a current one.
#[derive(Drop)]
pub struct Loaded {
    hlr: IsdnAddress,
    records: Records,
    directory: Arc<Directory>,
}

impl Model for Loaded {
    ghost use Rattle.records.specs.Loaded.{Subscribers, subscribers_code};
    ghost use Rattle.records.specs.Fresh.{AreFresh};
    ghost use Rattle.std.specs.Arc.{arc_value};

    ghost Value = { Subscribers };

    ghost coded = { subscribers_code };

    ghost view = { λ l.
        record { hlr = l.hlr; records = l.records; directory = arc_value l.directory } };

    ghost invariant = { λ l. AreFresh l.records };
}

impl Loaded {
    ghost use Rattle.records.specs.Maps.{part_of};
    ghost use Rattle.records.specs.Parts.{AreParts};
    ghost use Rattle.records.specs.Fresh.{AreFresh, IsFresh};
    ghost use Rattle.std.specs.List.{AllByRecursion};
    ghost use Rattle.records.specs.File.{AreApart};
    ghost use Rattle.records.specs.Loaded.{loaded_from};
    ghost use Rattle.records.specs.Reading.{with_hlr};

    /// The HLR number and these records. `None` if two share an IMSI or an MSISDN.
    pub(crate) fn of_records(
        alloc: Global,
        hlr: IsdnAddress,
        all: Vec<Record>,
    ) -> Result<Option<Loaded>, AllocError>
        requires fresh { AllByRecursion IsFresh all.items }
        ensures value { IfOk result
            (λ found. IfSome found (λ loaded. loaded ≡ loaded_from (with_hlr hlr all.items))) }
        ensures apart { IfOk result (λ found. IfSome found (λ _. AreApart all.items)) }
    {
        let entries = entries_of(alloc, &all)?;
        let Some(directory) = Directory::of_entries(entries) else {
            return Ok(None);
        };
        let Some(records) = Records::of_unsorted(alloc, all) else {
            return Ok(None);
        };
        Ok(Some(Loaded {
            hlr,
            records,
            directory: Arc::new(alloc, directory)?,
        }))
    }

    /// The HLR number.
    pub fn hlr(&self) -> &IsdnAddress
        ensures { result.now ≡ self.now.hlr }
    {
        &self.hlr
    }

    /// Each subscriber's IMSI by MSISDN.
    pub fn directory(&self) -> &Directory
        ensures { result.now ≡ self.now.directory }
    {
        &self.directory
    }

    /// The shared directory, for a shard to keep. It is not copied.
    pub fn shared_directory(&self) -> Result<Arc<Directory>, AllocError>
        ensures { IfOk result (λ shared. arc_value shared ≡ self.now.directory) }
    {
        Arc::try_clone(&self.directory)
    }

    /// The records of a shard.
    pub fn part(&self, shard: u8) -> Result<Records, AllocError>
        requires { shard < 16 }
        ensures part { IfOk result (λ part. part ≡ part_of self.now.records shard) }

        // Each record is as read from a file: no update is in progress.
        ensures fresh { AreFresh self.now.records }
    {
        self.records.part(shard)
    }

    /// The records of each shard, indexed by its number. No record is copied; the loaded value is consumed.
    pub fn into_parts(self) -> Result<Vec<Records>, AllocError>
        ensures parts { IfOk result (λ parts. AreParts self.records parts.items) }

        // Each record is as read from a file: no update is in progress.
        ensures fresh { AreFresh self.records }
    {
        self.records.into_parts()
    }
}

/// The MSISDN and the IMSI of each record.
fn entries_of(alloc: Global, records: &[Record]) -> Result<Vec<(IsdnAddress, Imsi)>, AllocError>
    ensures { IfOk result (λ entries. entries.items ≡ each msisdn_entry records.now) }
{
    records
        .iter()
        .map(|record| (record.msisdn, record.imsi))
        .collect(alloc)
}

/// The contents of the lines read so far.
#[derive(Drop)]
pub(crate) struct Loading {
    hlr: IsdnAddress,
    records: Unordered,
    directory: DirectoryTree,
}

impl Model for Loading {
    ghost use Rattle.records.specs.Loaded.{Subscribers, subscribers_code};
    ghost use Rattle.records.specs.Fresh.{AreFresh};

    ghost Value = { Subscribers };

    ghost coded = { subscribers_code };

    ghost view = { λ l. record { hlr = l.hlr; records = l.records; directory = l.directory } };

    ghost invariant = { λ l. AreFresh l.records };
}

impl Loading {
    ghost use Rattle.records.specs.Loaded.{with_record, nobody};
    ghost use Rattle.records.specs.Loading.{is_new};

    /// The HLR number, no record, and room for so many.
    pub(crate) fn with_room(
        alloc: Global,
        hlr: IsdnAddress,
        room: usize,
    ) -> Result<Loading, AllocError>
        ensures { IfOk result (λ loading. loading ≡ nobody hlr) }
    {
        Ok(Loading {
            hlr,
            records: Unordered::with_room(alloc, room)?,
            directory: DirectoryTree::new(alloc),
        })
    }

    /// Adds a record if its IMSI and its MSISDN are new, and tells whether they are. After an error, or where one is not
    /// new, the value must not be used.
    pub(crate) fn add(&mut self, subscriber: Record) -> Result<bool, AllocError>
        requires unmarked { subscriber.current ≡ None }
        ensures is_new { IfOk result (λ added. added ≡ is_new self.old subscriber) }
        ensures added { IfOk result
            (λ added. OnTrue added (self.new ≡ with_record self.old subscriber)) }
    {
        let msisdn = subscriber.msisdn;
        let imsi = subscriber.imsi;
        if !self.records.add(subscriber)? {
            return Ok(false);
        }
        self.directory.add(msisdn, imsi)
    }

    /// The whole contents, with the directory in its shared form.
    pub(crate) fn finish(self, alloc: Global) -> Result<Loaded, AllocError>
        ensures { IfOk result (λ loaded. loaded ≡ self) }
    {
        Ok(Loaded {
            hlr: self.hlr,
            records: self.records.finish(),
            directory: Arc::new(alloc, self.directory.finish()?)?,
        })
    }
}
