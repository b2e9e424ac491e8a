//! A received End or Abort of an open dialogue (Q.774).

ghost use Rattle.std.specs.Prelude.{◌≡◌, [], Option, option_copied};
ghost use Rattle.machine.specs.State.{Dialogue, Local};
ghost use Rattle.machine.specs.Dialogues.{closes};
ghost use Rattle.location.specs.Seen.{known, outcome_of};
ghost use Rattle.location.specs.Writing.{CanBeWritten};

use crate::outcome::{DialogueChange, Outcome};
use crate::update_end::unmarked;
use hlr_types::Tid;
use records::Record;

/// An End or an Abort: the dialogue closes, whatever components the End carries, and nothing is sent (profile).
pub fn closes(subscriber: Option<&Record>, id: Tid) -> Outcome
    ensures leaves { (here : Local) (named : Option Dialogue)
        → here.record_of ≡ known subscriber.entry
        → outcome_of here named [] result ≡ closes here id }
    ensures writable { CanBeWritten result.after (option_copied subscriber.entry) }
{
    Outcome {
        after: unmarked(subscriber, id),
        dialogue: DialogueChange::Closes,
        message: None,
        cancel: None,
    }
}
