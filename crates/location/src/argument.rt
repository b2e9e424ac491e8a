//! The argument with which a Begin may start a procedure (TS 29.002).

ghost use Rattle.std.specs.Prelude.{◌≡◌, map, option_map};
ghost use Rattle.machine.specs.Begins.{first_argument};
ghost use Rattle.msgarena.specs.Seen.{argument, parameter};
ghost use Rattle.q773_comp.specs.Seen.{component};

use msgarena::{Argument, Parameter};
use q773_comp::Component;

/// The argument of the first component, if that is an Invoke with a parameter of its type.
pub fn first_argument(components: &[Component<Parameter>]) -> Option<Argument>
    ensures { option_map argument result
        ≡ first_argument (map (component parameter) components.now) }
{
    match components {
        [
            Component::Invoke {
                parameter: Some(Parameter::Typed(argument)),
                ..
            },
            ..
        ] => Some(*argument),
        _ => None,
    }
}
