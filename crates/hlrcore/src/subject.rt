//! The subscriber that a Begin is about.

ghost use Rattle.std.specs.Prelude.{◌≡◌, map};
ghost use Rattle.machine.specs.Routing.{subject_of_begin};
ghost use Rattle.msgarena.specs.Seen.{parameter};
ghost use Rattle.q773_comp.specs.Seen.{component};
ghost use Rattle.hlrcore.specs.Shards.{directory_of};

use hlr_types::Imsi;
use location::first_argument;
use msgarena::{Argument, Parameter};
use q773_comp::Component;
use records::Directory;

/// The subscriber that a Begin is about, by its first component only. sendRoutingInfoForSM names the subscriber by MSISDN
/// (TS 29.002, 12.1).
pub fn subject_of_begin(directory: &Directory, components: &[Component<Parameter>]) -> Option<Imsi>
    ensures { result ≡ subject_of_begin (directory_of directory.now)
        (map (component parameter) components.now) }
{
    match first_argument(components)? {
        Argument::BadValue => None,
        Argument::Update(update) => Some(update.imsi),
        Argument::Purge(purge) => Some(purge.imsi),
        Argument::Route(route) => directory.find(&route.msisdn),
    }
}
