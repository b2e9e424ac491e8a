//! Whether records are equal.

ghost use Rattle.std.specs.Prelude.{◌≡◌, ◌↔◌, IsTrue};
ghost use Rattle.records.specs.Roam.{prefixes_of};

use crate::record::Record;
use crate::roam::Roam;
use hlr_types::Digits;

/// Whether two lists of prefixes are equal.
fn same_prefixes(left: &[Digits], right: &[Digits]) -> bool
    ensures { IsTrue result ↔ (left.now ≡ right.now) }
{
    left == right
}

/// Whether the same VLRs are allowed.
fn same_roam(left: &Roam, right: &Roam) -> bool
    ensures { IsTrue result ↔ (prefixes_of left.now ≡ prefixes_of right.now) }
{
    match (left, right) {
        (Roam::Everywhere, Roam::Everywhere) => true,
        (Roam::Within(prefixes), Roam::Within(others)) => same_prefixes(
            prefixes.as_slice(),
            others.as_slice(),
        ),
        _ => false,
    }
}

impl Record {
    /// Whether the records are equal.
    pub fn same(&self, other: &Record) -> bool
        ensures { IsTrue result ↔ (self.now ≡ other.now) }
    {
        self.imsi == other.imsi
            && self.msisdn == other.msisdn
            && self.codes == other.codes
            && same_roam(&self.roam, &other.roam)
            && self.register == other.register
            && self.purged == other.purged
            && self.current == other.current
            && self.withdrawn == other.withdrawn
    }
}

/// Whether two lists of records are equal.
pub(crate) fn are_same(left: &[Record], right: &[Record]) -> bool
    ensures { IsTrue result ↔ (left.now ≡ right.now) }
{
    if left.len() != right.len() {
        return false;
    }
    for index in 0..left.len() {
        if !left[index].same(&right[index]) {
            return false;
        }
    }
    true
}
