//! The sender of a Begin, and the End that answers it (Q.774).

ghost use Rattle.std.specs.Prelude.{◌≡◌, ◌∷◌, []};
ghost use Rattle.machine.specs.Begins.{end_of_begin};
ghost use Rattle.outgoing.specs.Seen.{component as component_of, components, out};

use dialogues::InvokeId;
use hlr_types::{Peer, RemoteId};
use mapctx::Context;
use outgoing::{Addressed, Components, SentComponent, SentMessage};
use q773_comp::Rejection;

/// The sender of a Begin: its address, the originating transaction id, and the application context.
#[derive(Clone, Copy)]
pub(crate) struct Source {
    pub(crate) from: Peer,
    pub(crate) origin: RemoteId,
    pub(crate) context: Context,
}

/// A request in a Begin: its sender, the Rejects of its components, and the invoke id of the Invoke that started.
#[derive(Drop)]
pub(crate) struct Initiator {
    pub(crate) source: Source,
    pub(crate) rejects: Vec<Rejection>,
    pub(crate) invoke: InvokeId,
}

impl Source {
    ghost use Rattle.std.specs.Prelude.{map};
    ghost use Rattle.q773_comp.specs.Seen.{rejection};
    ghost use Rattle.location.specs.Asking.{source_with};

    /// The End that answers the Begin.
    pub(crate) fn end_of_begin(self, rejects: Vec<Rejection>, sent: Components) -> Addressed
        ensures { out result ∷ [] ≡ end_of_begin (source_with self (map rejection rejects.items))
            (components sent) }
    {
        let Source {
            from,
            origin,
            context,
        } = self;
        Addressed {
            to: from,
            message: SentMessage::End {
                destination: origin,
                context: Some(context),
                rejects,
                components: sent,
            },
        }
    }
}

impl Initiator {
    ghost use Rattle.location.specs.Asking.{initiator_of};

    /// The End that answers the Begin with this component.
    pub(crate) fn answers(self, component: SentComponent) -> Addressed
        ensures { out result ∷ [] ≡ end_of_begin (initiator_of self) (component_of component ∷ []) }
    {
        self.source
            .end_of_begin(self.rejects, Components::One(component))
    }
}
