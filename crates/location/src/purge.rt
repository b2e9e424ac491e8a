//! A Begin's purgeMS (TS 29.002, 8.1.6 MAP_PURGE_MS; TS 23.012, Purge MS).

ghost use Rattle.std.specs.Prelude.{◌≡◌, [], Some, option_map, option_copied};
ghost use Rattle.machine.specs.State.{Local};
ghost use Rattle.machine.specs.Begins.{purge, purge_at};
ghost use Rattle.smroute.specs.Seen.{machine_register, machine_subscriber};
ghost use Rattle.location.specs.Asking.{initiator_of};
ghost use Rattle.location.specs.Seen.{known, outcome_of};
ghost use Rattle.location.specs.Writing.{CanBeWritten};

use crate::begin::failed;
use crate::components::purge_result;
use crate::initiator::Initiator;
use crate::outcome::{After, DialogueChange, Outcome};
use hlr_types::IsdnAddress;
use machine::numbers::{DATA_MISSING, UNKNOWN_SUBSCRIBER};
use mapargs_loc::PurgeArg;
use records::Record;

/// The purge of a subscriber who is not withdrawn: only the stored register, compared by its digits, sets the purged flag.
fn purge_known(who: Initiator, vlr: IsdnAddress, subscriber: &Record) -> Outcome
    ensures leaves { (here : Local) → here.record_of ≡ Some (machine_subscriber subscriber.now)
        → outcome_of here None [] result
        ≡ purge_at here (initiator_of who) who.invoke (machine_subscriber subscriber.now) vlr
        (option_map machine_register subscriber.now.register) }
    ensures writable { CanBeWritten result.after (Some subscriber.now) }
{
    let purges = match subscriber.register {
        Some(register) => register.vlr == vlr,
        None => false,
    };
    let result = purge_result(who.invoke, purges);
    Outcome {
        after: if purges { After::Purged } else { After::Same },
        dialogue: DialogueChange::Closes,
        message: Some(who.answers(result)),
        cancel: None,
    }
}

/// purgeMS. Without a VLR number the error is dataMissing, even for an unknown subscriber (profile).
pub(crate) fn purge(who: Initiator, asked: &PurgeArg, subscriber: Option<&Record>) -> Outcome
    ensures leaves { (here : Local) → here.record_of ≡ known subscriber.entry
        → outcome_of here None [] result
        ≡ purge here (initiator_of who) who.invoke asked.now.vlr (known subscriber.entry) }
    ensures writable { CanBeWritten result.after (option_copied subscriber.entry) }
{
    let Some(vlr) = asked.vlr else {
        return failed(who, DATA_MISSING);
    };
    match subscriber {
        Some(subscriber) if !subscriber.withdrawn => purge_known(who, vlr, subscriber),
        _ => failed(who, UNKNOWN_SUBSCRIBER),
    }
}
