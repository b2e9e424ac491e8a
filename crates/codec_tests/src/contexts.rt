//! The examples of refused contexts, octet for octet, and that there is an answer at all.

use crate::tables::{check, is_written, octets};
use crate::told::{spelled, taken};
use berwrite::{Memory, write_tree};
use bumpalo::Bump;
use hlr_types::RemoteId;
use mapctx::{Context, ContextName};
use mapdlg::{Accepted, Why, accept, first_answer, refuse};
use msgarena::{ReadMessage, Verdict};
use q773_msg::write_message;
use std::alloc::{AllocError, Global};
use std::test::Fail;

/// The content of an Abort.
fn told_why(alloc: Global, why: &Why) -> Result<String, AllocError> {
    match why {
        Why::Refusing(name) => { format!(in alloc; "refuses {}", spelled(alloc, name.as_slice())?) }
        Why::Cause(cause) => format!(in alloc; "cause {cause}"),
        Why::NoCause => String::from_str(alloc, "no cause"),
    }
}

/// The decision on a Begin: its context, or the content of the Abort.
fn told(alloc: Global, decided: &Accepted) -> Result<String, AllocError> {
    match decided {
        Accepted::Go(context) => format!(in alloc; "begins in {context:?}"),
        Accepted::Refuse(why) => told_why(alloc, why),
    }
}

/// Begins of an update: the Invoke has no parameter.
const BEGINS: &str = "
- accepted
  | 62 30 48 04 00 00 00 0B 6B 1E 28 1C 06 07 00 11 86 05 01 01 01 A0 11 60 0F 80 02 07 80 A1 09
    06 07 04 00 00 01 00 01 03 6C 08 A1 06 02 01 01 02 01 02
  | begins in NetworkLocUp
- version 2
  | 62 30 48 04 00 00 00 0B 6B 1E 28 1C 06 07 00 11 86 05 01 01 01 A0 11 60 0F 80 02 07 80 A1 09
    06 07 04 00 00 01 00 01 02 6C 08 A1 06 02 01 01 02 01 02
  | refuses 04000001000103
- another context
  | 62 30 48 04 00 00 00 0B 6B 1E 28 1C 06 07 00 11 86 05 01 01 01 A0 11 60 0F 80 02 07 80 A1 09
    06 07 04 00 00 01 00 05 03 6C 08 A1 06 02 01 01 02 01 02
  | refuses 04000001000503
- a context in which only this end begins
  | 62 30 48 04 00 00 00 0B 6B 1E 28 1C 06 07 00 11 86 05 01 01 01 A0 11 60 0F 80 02 07 80 A1 09
    06 07 04 00 00 01 00 02 03 6C 08 A1 06 02 01 01 02 01 02
  | refuses 04000001000203
- version 2 and no component
  | 62 26 48 04 00 00 00 0B 6B 1E 28 1C 06 07 00 11 86 05 01 01 01 A0 11 60 0F 80 02 07 80 A1 09
    06 07 04 00 00 01 00 1B 02
  | refuses 04000001001B03
- no component
  | 62 26 48 04 00 00 00 0B 6B 1E 28 1C 06 07 00 11 86 05 01 01 01 A0 11 60 0F 80 02 07 80 A1 09
    06 07 04 00 00 01 00 01 03
  | no cause
- no dialogue portion | 62 10 48 04 00 00 00 0B 6C 08 A1 06 02 01 01 02 01 02 | no cause
";

#[test]
fn contexts(rt: HostRuntime) -> Result<(), Fail> {
    check(&rt, BEGINS, |alloc, text| {
        let begin = taken(alloc, &octets(alloc, text)?)?;
        match begin.verdict() {
            Verdict::Read(
                ReadMessage::Begin {
                    context,
                    components,
                    ..
                },
            ) => {
                let count = components.as_slice().len();
                Ok(told(alloc, &accept(context.as_ref(), count))?)
            }
            _ => Err("no Begin")?,
        }
    })
}

/// The name of networkLocUp, version 3.
const NAME: [u8; 7] = [0x04, 0x00, 0x00, 0x01, 0x00, 0x01, 0x03];

/// The Abort to 0000000B that refuses a context and offers this name.
const REFUSING: &str = "67 32 49 04 00 00 00 0B 6B 2A 28 28 06 07 00 11 86 05 01 01 01 A0 1D 61 1B
    80 02 07 80 A1 09 06 07 04 00 00 01 00 01 03 A2 03 02 01 01 A3 05 A1 03 02 01 02";

/// The originating id of the Begins.
fn origin() -> Result<RemoteId, Fail> {
    Ok(RemoteId::read(&[0x00, 0x00, 0x00, 0x0B]).ok_or("no id")?)
}

#[test]
fn refusals(rt: HostRuntime) -> Result<(), Fail> {
    let rows = [
        (Why::Refusing(ContextName::from_slice(&NAME)), REFUSING),
        (Why::NoCause, "67 06 49 04 00 00 00 0B"),
        (Why::Cause(4), "67 09 49 04 00 00 00 0B 4A 01 04"),
    ];
    for (why, text) in rows {
        let bump = Bump::new(rt.alloc());
        let message = refuse(&bump, &origin()?, &why)?;
        is_written(&rt, &write_message(rt.alloc(), &message)?, text)?;
    }
    Ok(())
}

#[test]
fn accepting(rt: HostRuntime) -> Result<(), Fail> {
    let bump = Bump::new(rt.alloc());
    let tree = first_answer(&bump, Context::ShortMsgGateway)?;
    is_written(&rt, &write_tree(rt.alloc(), &tree)?, "DA")
}

/// The octets of the Abort to this id that refuses a context.
fn refused(alloc: Global, to: &RemoteId) -> Result<Vec<u8>, Memory> {
    let why = Why::Refusing(ContextName::from_slice(&NAME));
    let bump = Bump::new(alloc);
    let message = refuse(&bump, to, &why)?;
    write_message(alloc, &message)
}

/// With enough memory the Abort is made. If an allocation fails, the answer is `Memory`, and the next one
/// is right: run `rt try --test --fail-alloc N` for N = 1, 2, .. until all tests pass, and look at this one
/// only, since the others need enough memory.
#[test]
fn refused_growth_is_memory(rt: HostRuntime) -> Result<(), Fail> {
    let to = origin()?;
    let octets = match refused(rt.alloc(), &to) {
        Ok(octets) => octets,
        Err(Memory) => refused(rt.alloc(), &to)?,
    };
    assert_eq!(rt; octets.len(), 52);
    Ok(())
}
