//! The subscribers by MSISDN.

ghost use Rattle.std.specs.Prelude.{◌≡◌, ◌↔◌, IfOk, IfSome, IsTrue, List, ℕ, Some};
ghost use Rattle.std.specs.Bool.{OnTrue};
ghost use Rattle.std.specs.FinMap as map;
ghost use Rattle.std.specs.List.{Contains};
ghost use Rattle.records.specs.Maps.{digits_cmp};
ghost use Rattle.records.specs.Ordered.{AreDistinct, AreOrderedBy};

use crate::starts::Starts;
use hlr_types::{Imsi, IsdnAddress};
use std::alloc::{AllocError, Global};
use std::collections::BTreeMap;
use std::marker::Model;

/// The directory: each subscriber's IMSI by MSISDN. It is built when the records file is read, and then never changes.
#[derive(Drop)]
pub struct Directory {
    /// Each MSISDN and its IMSI, in the order of the MSISDNs.
    entries: Vec<(IsdnAddress, Imsi)>,
    /// Where to look for an MSISDN among them.
    starts: Starts,
}

impl Model for Directory {
    ghost use Rattle.std.specs.Prelude.{List, ℕ};
    ghost use Rattle.std.specs.FinMap as map;
    ghost use Rattle.records.specs.Maps.{DirectoryMap, directory_map_code};

    ghost Value = { DirectoryMap };

    ghost coded = { directory_map_code };

    ghost use Rattle.records.specs.Ordered.{AreOrderedBy};

    ghost view = { λ d. map.from_entries d.entries.items };

    ghost invariant = { λ d. AreOrderedBy (λ (e : List ℕ × List ℕ). e.0) d.entries.items };
}

impl Directory {
    /// The directory of these entries.
    fn over(entries: Vec<(IsdnAddress, Imsi)>) -> Directory
        requires { AreOrderedBy (λ (e : List ℕ × List ℕ). e.0) entries.items }
        ensures { result ≡ map.from_entries entries.items }
    {
        let starts = Starts::of(*entries.allocator(), &entries);
        Directory { entries, starts }
    }

    /// The directory of these IMSIs by MSISDN.
    pub(crate) fn of_tree(
        alloc: Global,
        imsis: BTreeMap<IsdnAddress, Imsi>,
    ) -> Result<Directory, AllocError>
        ensures { IfOk result (λ directory. directory ≡ map.from_entries imsis.entries) }
    {
        let _ordered = imsis.len();
        let entries = imsis.into_iter().collect(alloc)?;
        Ok(Directory::over(entries))
    }

    /// The directory of these entries, in whatever order. `None` if two have one MSISDN.
    pub(crate) fn of_entries(entries: Vec<(IsdnAddress, Imsi)>) -> Option<Directory>
        ensures value { IfSome result (λ directory. directory ≡ map.from_entries entries.items) }
        ensures distinct { IfSome result (λ _. AreDistinct entries.items) }
    {
        let mut entries = entries;
        entries.sort_unstable_by_key(|entry| entry.0);
        if !ascend(&entries) {
            return None;
        }
        Some(Directory::over(entries))
    }

    /// The IMSI of the subscriber with this MSISDN.
    pub fn find(&self, msisdn: &IsdnAddress) -> Option<Imsi>
        ensures { result ≡ map.get self.now msisdn.now }
    {
        if let Some(imsi) = self.find_near(msisdn) {
            return Some(imsi);
        }
        find_in(&self.entries, msisdn)
    }

    /// The same if the table points to the entry. Otherwise `None`, also if there is one.
    fn find_near(&self, msisdn: &IsdnAddress) -> Option<Imsi>
        ensures { IfSome result (λ imsi. map.get self.now msisdn.now ≡ Some imsi) }
    {
        let places = self.starts.near(msisdn.word())?;
        find_in(self.entries.get(places)?, msisdn)
    }

    /// Whether the directories are equal.
    pub fn same(&self, other: &Directory) -> bool
        ensures { IsTrue result ↔ (self.now ≡ other.now) }
    {
        self.entries == other.entries
    }

    /// An equal copy.
    pub fn try_copy(&self) -> Result<Directory, AllocError>
        ensures { IfOk result (λ copy. copy ≡ self.now) }
    {
        Ok(Directory::over(self.entries.clone()?))
    }
}

/// Whether each MSISDN comes before the next one.
fn ascend(entries: &[(IsdnAddress, Imsi)]) -> bool
    ensures { OnTrue result (AreOrderedBy (λ (e : List ℕ × List ℕ). e.0) entries.now) }
{
    entries.is_sorted_by(|entry, next| entry.0 < next.0)
}

/// The IMSI of the entry with this MSISDN, which is sought by halves.
fn find_in(entries: &[(IsdnAddress, Imsi)], msisdn: &IsdnAddress) -> Option<Imsi>
    ensures found { IfSome result (λ imsi. Contains entries.now (msisdn.now, imsi)) }
    ensures value { AreOrderedBy (λ (e : List ℕ × List ℕ). e.0) entries.now
        → result ≡ map.get (map.from_entries {R = digits_cmp} entries.now) msisdn.now }
{
    let Ok(at) = entries.binary_search_by_key(msisdn, |entry| entry.0) else {
        return None;
    };
    Some(entries[at].1)
}
