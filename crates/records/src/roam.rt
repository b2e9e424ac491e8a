//! Where a subscriber may roam.

use hlr_types::Digits;
use std::alloc::AllocError;

/// Which VLRs may serve a subscriber.
#[derive(Drop)]
pub enum Roam {
    /// Every VLR.
    Everywhere,
    /// VLRs whose number begins with one of these 1 to 8 prefixes. They stand elsewhere, since each record has room for what is
    /// here, and most have none.
    Within(Box<Vec<Digits>>),
}

/// A clone is an equal value.
impl Clone for Roam {
    ghost use Rattle.std.specs.Prelude.{◌≡◌};
    ghost use Rattle.records.specs.Roam.{prefixes_of};

    ghost is_clone = { λ roam copy. prefixes_of copy ≡ prefixes_of roam };

    fn clone(&self) -> Result<Roam, AllocError> {
        match self {
            Roam::Everywhere => Ok(Roam::Everywhere),
            Roam::Within(prefixes) => Ok(Roam::Within(prefixes.clone()?)),
        }
    }
}
