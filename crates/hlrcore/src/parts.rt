//! The state of a shard.

ghost use Rattle.std.specs.Prelude.{◌≡◌, ◌<◌, ◌≤◌, IfOk, min, max};
ghost use Rattle.std.specs.Arc.{arc_value};
ghost use Rattle.machine.specs.declared.numbers.TheConstants.{MAX_CLOCK};
ghost use Rattle.machine.specs.Opening.{opening};
ghost use Rattle.machine.specs.Parts.{part};
ghost use Rattle.records.specs.Maps.{RecordMap, part_of};
ghost use Rattle.hlrcore.specs.Shards.{IsOpening, state_of, records_of, directory_of};

use crate::start::first_generation;
use dialogues::Dialogues;
use hlr_types::IsdnAddress;
use machine::numbers::MAX_CLOCK;
use records::{Directory, Records};
use std::alloc::{AllocError, Global};
use std::marker::Model;
use std::sync::Arc;

/// The state of one shard: its records, its open dialogues and its clock, with the directory, which all shards share, and the
/// HLR number.
#[derive(Drop)]
pub struct ShardParts {
    pub(crate) alloc: Global,
    number: u8,
    pub(crate) clock: u64,
    pub(crate) records: Records,
    pub(crate) dialogues: Dialogues,
    directory: Arc<Directory>,
    hlr: IsdnAddress,
}

impl Model for ShardParts {
    ghost use Rattle.std.specs.Arc.{arc_value};
    ghost use Rattle.hlrcore.specs.Shards.{ShardState, shard_state_code, shard_of_fields, IsShardState};

    ghost Value = { ShardState };

    ghost coded = { shard_state_code };

    ghost view = { λ s. shard_of_fields s.number s.clock s.records s.dialogues
        (arc_value s.directory) s.hlr };

    ghost invariant = { λ s. IsShardState
        (shard_of_fields s.number s.clock s.records s.dialogues
        (arc_value s.directory) s.hlr) };
}

impl ShardParts {
    /// A shard that begins with these records, which are already its part, at the start with this number. It has no open dialogue, and its
    /// clock is 0.
    pub fn of_part(
        alloc: Global,
        start: u32,
        number: u8,
        records: Records,
        directory: Arc<Directory>,
        hlr: IsdnAddress,
    ) -> Result<ShardParts, AllocError>
        requires { number < 16 }
        ensures opening { IfOk result (IsOpening start number records
            (arc_value directory) hlr) }
        ensures part { IfOk result (λ shard. (all : RecordMap) → records ≡ part_of all number
            → state_of shard ≡ part (opening (records_of all)
            (directory_of (arc_value directory)) hlr) number) }
    {
        let mut dialogues = Dialogues::new(alloc, number)?;
        dialogues.begin_after(first_generation(start));
        Ok(ShardParts {
            alloc,
            number,
            clock: 0,
            records,
            dialogues,
            directory,
            hlr,
        })
    }

    /// Its number, 0 to 15.
    pub fn number(&self) -> u8
        ensures value { result ≡ self.now.shard }
        ensures small { result < 16 }
    {
        self.number
    }

    /// Its clock.
    pub fn clock(&self) -> u64
        ensures value { result ≡ self.now.clock }
        ensures early { result ≤ MAX_CLOCK }
    {
        self.clock
    }

    /// Its records.
    pub fn records(&self) -> &Records
        ensures { result.now ≡ self.now.records }
    {
        &self.records
    }

    /// Its open dialogues.
    pub fn dialogues(&self) -> &Dialogues
        ensures value { result.now ≡ self.now.dialogues }
        ensures own { self.now.dialogues.shard ≡ self.now.shard }
    {
        &self.dialogues
    }

    /// The directory, which all shards share.
    pub fn directory(&self) -> &Directory
        ensures { result.now ≡ self.now.directory }
    {
        &self.directory
    }

    /// The HLR number.
    pub fn hlr(&self) -> IsdnAddress
        ensures { result ≡ self.now.hlr }
    {
        self.hlr
    }

    /// An equal copy.
    pub fn try_copy(&self) -> Result<ShardParts, AllocError>
        ensures { IfOk result (λ copy. copy ≡ self.now) }
    {
        Ok(ShardParts {
            alloc: self.alloc,
            number: self.number,
            clock: self.clock,
            records: self.records.try_copy()?,
            dialogues: self.dialogues.try_copy()?,
            directory: Arc::try_clone(&self.directory)?,
            hlr: self.hlr,
        })
    }

    /// Sets the clock to `now`, if that is later. It never goes back (profile).
    pub fn tick(&mut self, now: u64)
        ensures { self.new ≡ record self.old { clock = max self.old.clock (min now MAX_CLOCK) } }
    {
        self.clock = self.clock.max(now.min(MAX_CLOCK));
    }
}
