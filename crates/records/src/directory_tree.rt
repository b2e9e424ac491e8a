//! The directory while a records file is read.

ghost use Rattle.std.specs.Prelude.{◌≡◌, OnOk, OnErr, IfOk, is_some, not};
ghost use Rattle.std.specs.FinMap as map;

use crate::directory::Directory;
use hlr_types::{Imsi, IsdnAddress};
use std::alloc::{AllocError, Global};
use std::collections::BTreeMap;
use std::marker::Model;

/// The directory of the lines read so far: a tree, to which entries are added in any order.
#[derive(Drop)]
pub(crate) struct DirectoryTree {
    alloc: Global,
    imsis: BTreeMap<IsdnAddress, Imsi>,
}

impl Model for DirectoryTree {
    ghost use Rattle.std.specs.FinMap as map;
    ghost use Rattle.records.specs.Maps.{DirectoryMap, directory_map_code};

    ghost Value = { DirectoryMap };

    ghost coded = { directory_map_code };

    ghost view = { λ d. map.from_entries d.imsis.entries };
}

impl DirectoryTree {
    /// An empty directory.
    pub(crate) fn new(alloc: Global) -> DirectoryTree
        ensures { result ≡ map.empty }
    {
        DirectoryTree {
            alloc,
            imsis: BTreeMap::new(alloc),
        }
    }

    /// Puts an IMSI at its MSISDN, and tells whether the MSISDN is new.
    pub(crate) fn add(&mut self, msisdn: IsdnAddress, imsi: Imsi) -> Result<bool, AllocError>
        ensures is_new { IfOk result (λ is_new. is_new ≡ not (is_some (map.get self.old msisdn))) }
        ensures ok { OnOk result (self.new ≡ map.insert self.old msisdn imsi) }
        ensures err { OnErr result (self.new ≡ self.old) }
    {
        let before = self.imsis.insert(msisdn, imsi)?;
        Ok(before.is_none())
    }

    /// The directory of a register.
    pub(crate) fn finish(self) -> Result<Directory, AllocError>
        ensures { IfOk result (λ directory. directory ≡ self) }
    {
        Directory::of_tree(self.alloc, self.imsis)
    }
}
