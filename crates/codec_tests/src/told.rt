//! Messages, components and arguments as texts.

use crate::tables::octets;
use bumpalo::Bump;
use hlr_types::{Digits, Lmsi, Peer};
use mapargs_loc::{PurgeArg, UpdateArg};
use msgarena::{Argument, Indication, Parameter, ReadMessage, Response, Round, Verdict};
use q773_comp::{Code, Component, Side};
use q773_dlg::Diagnostic;
use std::alloc::{AllocError, Global};
use std::test::Fail;

/// Octets as hexadecimal digits.
pub(crate) fn spelled(alloc: Global, octets: &[u8]) -> Result<String, AllocError> {
    hex::encode_upper(alloc, octets)
}

/// An id, or `-` for none.
fn id(alloc: Global, id: Option<i8>) -> Result<String, AllocError> {
    match id {
        Some(id) => format!(in alloc; "{id}"),
        None => String::from_str(alloc, "-"),
    }
}

fn code(alloc: Global, code: Code) -> Result<String, AllocError> {
    match code {
        Code::Number(number) => format!(in alloc; "{number}"),
        Code::Other => String::from_str(alloc, "other"),
    }
}

fn side(side: Side) -> &'static str {
    match side {
        Side::General => "general",
        Side::OfInvoke => "invoke",
        Side::OfResult => "result",
        Side::OfError => "error",
    }
}

/// A component with this text as its parameter.
pub(crate) fn component<P>(
    alloc: Global,
    component: &Component<P>,
    parameter: &str,
) -> Result<String, AllocError> {
    match component {
        Component::Invoke {
            id: own,
            linked,
            operation,
            parameter: _,
        } => {
            let (linked, operation) = (id(alloc, *linked)?, code(alloc, *operation)?);
            format!(in alloc; "invoke {own} {linked} {operation} {parameter}")
        }
        Component::ResultLast { id } => format!(in alloc; "result {id}"),
        Component::ResultNotLast { id } => format!(in alloc; "not last {id}"),
        Component::ReturnError { id, error } => {
            format!(in alloc; "error {id} {}", code(alloc, *error)?)
        }
        Component::Reject {
            id: of,
            side: kind,
            problem,
        } => format!(in alloc; "reject {} {} {problem}", id(alloc, *of)?, side(*kind)),
        Component::Bad(of, problem) => format!(in alloc; "bad {} {problem}", id(alloc, *of)?),
        Component::Ignored => String::from_str(alloc, "ignored"),
    }
}

/// An lmsi, or `-` for none.
fn lmsi(alloc: Global, lmsi: Option<Lmsi>) -> Result<String, AllocError> {
    match lmsi {
        Some(lmsi) => spelled(alloc, lmsi.as_slice()),
        None => String::from_str(alloc, "-"),
    }
}

pub(crate) fn update(alloc: Global, update: &UpdateArg) -> Result<String, AllocError> {
    let register = update.register;
    let lmsi = lmsi(alloc, register.lmsi)?;
    format!(in alloc;
        "update {} {} {} {lmsi}",
        update.imsi, register.vlr, register.msc
    )
}

pub(crate) fn purge(alloc: Global, purge: &PurgeArg) -> Result<String, AllocError> {
    match purge.vlr {
        Some(vlr) => format!(in alloc; "purge {} {vlr}", purge.imsi),
        None => format!(in alloc; "purge {} -", purge.imsi),
    }
}

fn parameter(alloc: Global, parameter: &Parameter) -> Result<String, AllocError> {
    match parameter {
        Parameter::Mistyped => String::from_str(alloc, "mistyped"),
        Parameter::Typed(Argument::BadValue) => String::from_str(alloc, "bad value"),
        Parameter::Typed(Argument::Update(argument)) => update(alloc, argument),
        Parameter::Typed(Argument::Purge(argument)) => purge(alloc, argument),
        Parameter::Typed(Argument::Route(route)) => format!(in alloc; "route {}", route.msisdn),
    }
}

/// The text of a component's parameter, `none` if it has none.
fn parameter_of(alloc: Global, component: &Component<Parameter>) -> Result<String, AllocError> {
    match component {
        Component::Invoke {
            parameter: Some(found),
            ..
        } => parameter(alloc, found),
        _ => String::from_str(alloc, "none"),
    }
}

/// The components, each after a comma.
fn components(alloc: Global, heard: &[Component<Parameter>]) -> Result<String, AllocError> {
    let mut text = String::new(alloc);
    for one in heard {
        let parameter = parameter_of(alloc, one)?;
        write!(text, ", {}", component(alloc, one, &parameter)?)?;
    }
    Ok(text)
}

pub(crate) fn diagnostic(alloc: Global, why: Diagnostic) -> Result<String, AllocError> {
    match why {
        Diagnostic::OfUser(octet) => format!(in alloc; "user {octet}"),
        Diagnostic::OfProvider(octet) => format!(in alloc; "provider {octet}"),
    }
}

/// The name of the context, the result and the diagnostic, or `-` if there is no response.
fn response(alloc: Global, response: &Option<Response>) -> Result<String, AllocError> {
    let Some(response) = response else {
        return String::from_str(alloc, "-");
    };
    let name = spelled(alloc, response.context.as_slice())?;
    let diagnostic = diagnostic(alloc, response.diagnostic)?;
    format!(in alloc; "{name}/{}/{diagnostic}", response.result)
}

fn message(alloc: Global, message: &ReadMessage) -> Result<String, AllocError> {
    match message {
        ReadMessage::Begin {
            origin,
            context,
            components: heard,
        } => {
            let name = match context {
                Some(name) => spelled(alloc, name.as_slice())?,
                None => String::from_str(alloc, "-")?,
            };
            let origin = spelled(alloc, origin.as_slice())?;
            format!(in alloc;
                "begin {origin} {name}{}",
                components(alloc, heard.as_slice())?
            )
        }
        ReadMessage::Continue {
            origin,
            destination,
            response: of,
            components: heard,
        } => {
            let origin = spelled(alloc, origin.as_slice())?;
            let destination = spelled(alloc, destination.as_slice())?;
            let (of, heard) = (response(alloc, of)?, components(alloc, heard.as_slice())?);
            format!(in alloc; "continue {origin} {destination} {of}{heard}")
        }
        ReadMessage::End {
            destination,
            response: of,
            components: heard,
        } => {
            let destination = spelled(alloc, destination.as_slice())?;
            let (of, heard) = (response(alloc, of)?, components(alloc, heard.as_slice())?);
            format!(in alloc; "end {destination} {of}{heard}")
        }
        ReadMessage::Abort { destination } => {
            format!(in alloc; "aborted {}", spelled(alloc, destination.as_slice())?)
        }
    }
}

/// The verdict on a frame, as a text: `discarded`; `abort`, the id and the cause; or the message, its ids,
/// the name of the context or the response, and the components.
fn told(alloc: Global, verdict: &Verdict) -> Result<String, AllocError> {
    match verdict {
        Verdict::Discard => String::from_str(alloc, "discarded"),
        Verdict::Refuse(origin, cause) => {
            format!(in alloc; "abort {} {cause}", spelled(alloc, origin.as_slice())?)
        }
        Verdict::Read(read) => message(alloc, read),
    }
}

/// The source of all frames.
pub(crate) fn peer() -> Result<Peer, Fail> {
    let digits = Digits::from_text(b"447700909999").ok_or("no digits")?;
    Ok(Peer::new(digits))
}

/// The indication of a frame, through an arena of its own.
pub(crate) fn taken(alloc: Global, octets: &[u8]) -> Result<Indication, Fail> {
    let mut bump = Bump::new(alloc);
    Ok(Round::take(alloc, &mut bump, peer()?, octets)?)
}

/// The verdict on a frame of these octets, as a text.
pub(crate) fn verdict_on(alloc: Global, text: &str) -> Result<String, Fail> {
    let octets = octets(alloc, text)?;
    Ok(told(alloc, taken(alloc, &octets)?.verdict())?)
}
