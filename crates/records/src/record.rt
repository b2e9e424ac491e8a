//! A subscriber's record.

use crate::numbers::{are_octets, register_numbers};
use crate::roam::Roam;
use hlr_types::{Imsi, IsdnAddress, Register, ShortList, Tid};
use std::alloc::AllocError;
use std::marker::Model;

/// A subscriber's record (TS 23.012): identity, subscriber data, and the serving register.
///
/// Facts of every record: at most 32 codes, all different; 1 to 8 roaming prefixes or every VLR; no purged flag without a
/// register; a withdrawn subscriber has neither a register nor a current update.
#[derive(Drop)]
pub struct Record {
    pub imsi: Imsi,
    pub msisdn: IsdnAddress,
    pub roam: Roam,
    /// The serving register.
    pub register: Option<Register>,
    /// The teleservice codes (TS 29.002, TeleserviceCode), in the order of the file. They stand after the words of eight octets, so
    /// that a record has no gap.
    pub codes: ShortList<32>,
    /// Whether the serving register has purged the subscriber (TS 23.012, Purge MS).
    pub purged: bool,
    /// The local id of the current update, the only one that may complete.
    pub current: Option<Tid>,
    /// Whether the operator has withdrawn the subscriber.
    pub withdrawn: bool,
}

impl Model for Record {
    ghost use Rattle.records.specs.Subscriber.{Subscriber, subscriber_code, IsRecord};

    ghost Value = { Subscriber };

    ghost coded = { subscriber_code };

    ghost use Rattle.records.specs.Seen.{seen};

    ghost view = { seen };

    ghost invariant = { λ r. IsRecord (seen r) };
}

/// A clone is an equal record.
impl Clone for Record {
    ghost use Rattle.std.specs.Prelude.{◌≡◌};

    ghost is_clone = { λ source copy. copy ≡ source };

    fn clone(&self) -> Result<Record, AllocError> {
        Ok(Record {
            imsi: self.imsi,
            msisdn: self.msisdn,
            codes: self.codes,
            roam: self.roam.clone()?,
            register: self.register,
            purged: self.purged,
            current: self.current,
            withdrawn: self.withdrawn,
        })
    }
}

impl Record {
    ghost use Rattle.std.specs.Prelude.{◌≡◌};
    ghost use Rattle.records.specs.Subscriber.{IsPlace, AreAllowed, placed, allowed, as_withdrawn};

    /// Sets the serving register, the purged flag and the current update.
    pub(crate) fn place(&mut self, register: Option<Register>, purged: bool, current: Option<Tid>)
        requires { IsPlace self.old.withdrawn register purged current }
        ensures { self.new ≡ placed self.old register purged current }
    {
        register_numbers(&register);
        self.register = register;
        self.purged = purged;
        self.current = current;
    }

    /// Sets the codes, and whether the subscriber is withdrawn.
    pub(crate) fn allow(&mut self, codes: ShortList<32>, withdrawn: bool)
        requires codes { AreAllowed codes }
        requires place { IsPlace withdrawn self.old.register self.old.purged self.old.current }
        ensures { self.new ≡ allowed self.old codes withdrawn }
    {
        are_octets(codes.as_slice());
        self.codes = codes;
        self.withdrawn = withdrawn;
    }

    /// Withdraws the subscriber: no register and no current update any more.
    pub(crate) fn withdraw(&mut self)
        ensures { self.new ≡ as_withdrawn self.old }
    {
        self.register = None;
        self.purged = false;
        self.current = None;
        self.withdrawn = true;
    }
}
