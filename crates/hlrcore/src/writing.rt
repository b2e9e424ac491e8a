//! Writing the record of a subscriber (TS 23.012).

ghost use Rattle.std.specs.Prelude.{◌≡◌, [], IsSome, Some, true};
ghost use Rattle.std.specs.FinMap as finite;
ghost use Rattle.machine.specs.Keys.{put};
ghost use Rattle.records.specs.Subscriber.{AreAllowed};
ghost use Rattle.location.specs.Seen.{after_of};
ghost use Rattle.location.specs.Writing.{CanBeWritten};
ghost use Rattle.hlrcore.specs.Changing.{written};
ghost use Rattle.hlrcore.specs.Shards.{record_at, records_of};

use hlr_types::{Imsi, ShortList};
use location::After;
use records::Records;

/// Sets the purged flag (Purge MS).
fn purge(records: &mut Records, imsi: &Imsi)
    requires { CanBeWritten After.Purged (finite.get records.old imsi.now) }
    ensures { records_of records.new
        ≡ put (records_of records.old) imsi.now
        (after_of [] After.Purged (records_of records.old imsi.now)) }
{
    let Some(found) = records.get(imsi) else {
        return;
    };
    let register = found.register;
    let current = found.current;
    records.set(imsi, register, true, current);
}

/// Sets the operator's new codes, and clears the current mark.
fn recode(records: &mut Records, imsi: &Imsi, codes: ShortList<32>)
    requires known { IsSome (finite.get records.old imsi.now) }
    requires codes { AreAllowed codes }
    ensures { records_of records.new
        ≡ put (records_of records.old) imsi.now
        (after_of codes After.NewCodes (records_of records.old imsi.now)) }
{
    let Some(found) = records.get(imsi) else {
        return;
    };
    let register = found.register;
    let purged = found.purged;
    let withdrawn = found.withdrawn;
    records.put(imsi, codes, withdrawn);
    records.set(imsi, register, purged, None);
}

/// Writes the change of a subscriber's record, if any. Does not allocate.
pub(crate) fn write(records: &mut Records, imsi: Option<Imsi>, after: After, codes: ShortList<32>)
    requires writable { CanBeWritten after (record_at records.old imsi) }
    requires codes { after ≡ After.NewCodes → AreAllowed codes }
    ensures { records_of records.new ≡ written codes after imsi (records_of records.old) }
{
    let Some(imsi) = imsi else {
        return;
    };
    match after {
        After::Same => {}
        After::Purged => purge(records, &imsi),
        After::Location {
            register,
            purged,
            current,
        } => records.set(&imsi, register, purged, current),
        After::NewCodes => recode(records, &imsi, codes),
        After::Withdrawn => records.withdraw(&imsi),
    }
}
