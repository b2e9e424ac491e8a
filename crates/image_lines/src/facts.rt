//! Facts that the types of a line guarantee. Nothing is computed here.

ghost use Rattle.std.specs.Prelude.{[]};
ghost use Rattle.hlr_types.specs.Digits.{AreSomeDigits, AreImsiDigits};
ghost use Rattle.octets.specs.Octets.{AreOctets};
ghost use Rattle.dialogues.specs.Seen.{dialogue_with, kind_of};
ghost use Rattle.mapargs_loc.specs.Seen.{register};
ghost use Rattle.image_lines.specs.Lines.{AreFour, HasLimits, IfKnown, IsKind, IsLine, IsOpened, IsRegister, IsRemote};
ghost use Rattle.image_lines.specs.Seen.{line_of};

use crate::line::Line;
use dialogues::{Dialogue, Kind};
use hlr_types::{Imsi, Lmsi, Register, RemoteId, Tid};

/// Fact: a line is one that can be read again, if its shard, if it has one, is within its limits.
pub fn is_line(line: &Line)
    ensures { HasLimits (line_of line.now) → IsLine (line_of line.now) }
{
    match line {
        Line::Shard { .. } => {}
        Line::Used(id) => four_octets(id),
        Line::Freed(id) => four_octets(id),
        Line::Opened { id, dialogue, .. } => {
            four_octets(id);
            is_opened(dialogue);
        }
        Line::Waits {
            invoke,
            deadline,
            ..
        } => {
            let _invoke = *invoke;
            let _deadline = *deadline;
        }
        Line::End => {}
    }
}

fn are_octets(numbers: &[u8])
    ensures { AreOctets numbers.now }
{
    let _numbers = numbers;
}

fn four_octets(id: &Tid)
    ensures { AreFour id.now }
{
    are_octets(id.as_slice());
}

fn is_opened(dialogue: &Dialogue)
    ensures { IsOpened (dialogue_with [] dialogue.now) }
{
    is_imsi(&dialogue.subscriber);
    dialogue.transaction.peer.digits().are_some_digits();
    is_remote(&dialogue.transaction.remote);
    is_kind(&dialogue.kind);
}

fn is_imsi(imsi: &Imsi)
    ensures digits { AreSomeDigits imsi.now }
    ensures count { AreImsiDigits imsi.now }
{
    imsi.digits().are_some_digits();
}

fn is_remote(remote: &Option<RemoteId>)
    ensures { IfKnown IsRemote remote.now }
{
    if let Some(remote) = remote {
        is_remote_id(remote);
    }
}

fn is_remote_id(remote: &RemoteId)
    ensures { IsRemote remote.now }
{
    are_octets(remote.as_slice());
}

fn is_kind(kind: &Kind)
    ensures { IsKind (kind_of kind.now) }
{
    match kind {
        Kind::Update { register, invoke } => {
            is_register(register);
            invoke.number();
        }
        Kind::Cancel { vlr, attempt, .. } => {
            vlr.digits().are_some_digits();
            let _attempt = *attempt;
        }
        Kind::Data => {}
    }
}

fn is_register(of: &Register)
    ensures { IsRegister (register of.now) }
{
    of.vlr.digits().are_some_digits();
    of.msc.digits().are_some_digits();
    is_lmsi(&of.lmsi);
}

fn is_lmsi(lmsi: &Option<Lmsi>)
    ensures { IfKnown AreFour lmsi.now }
{
    if let Some(lmsi) = lmsi {
        are_four(lmsi);
    }
}

fn are_four(lmsi: &Lmsi)
    ensures { AreFour lmsi.now }
{
    are_octets(lmsi.as_slice());
}
