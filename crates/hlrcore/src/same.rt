//! Whether two states are equal.

ghost use Rattle.std.specs.Prelude.{◌≡◌, ◌↔◌, IfOk, IsTrue};

use crate::parts::ShardParts;
use std::alloc::AllocError;

impl ShardParts {
    /// Whether the states are equal, the number of the shard included.
    pub fn same(&self, other: &ShardParts) -> Result<bool, AllocError>
        ensures { IfOk result (λ same. IsTrue same ↔ (self.now ≡ other.now)) }
    {
        if self.number() != other.number() {
            return Ok(false);
        }
        if !same_fixed(self, other) {
            return Ok(false);
        }
        if !self.records().same(other.records())? {
            return Ok(false);
        }
        self.dialogues().same(other.dialogues())
    }
}

/// Whether the clocks, the HLR numbers and the directories are equal.
fn same_fixed(left: &ShardParts, right: &ShardParts) -> bool
    ensures { IsTrue result ↔ ((left.now.clock ≡ right.now.clock) × (left.now.hlr ≡ right.now.hlr)
        × (left.now.directory ≡ right.now.directory)) }
{
    left.clock() == right.clock()
        && left.hlr() == right.hlr()
        && left.directory().same(right.directory())
}
