//! Facts that the types of a register's numbers guarantee. Nothing is computed here.

ghost use Rattle.std.specs.Prelude.{◌≡◌, length};
ghost use Rattle.records.specs.Subscriber.{MayServe, MayHaveLmsi, AreOctets};

use hlr_types::{Lmsi, Register};

/// The numbers of a register are addresses.
pub fn register_numbers(register: &Option<Register>)
    ensures { MayServe register.now }
{
    let Some(register) = register else {
        return;
    };
    register.vlr.digits().are_some_digits();
    register.msc.digits().are_some_digits();
    lmsi_octets(&register.lmsi);
}

fn lmsi_octets(lmsi: &Option<Lmsi>)
    ensures { MayHaveLmsi lmsi.now }
{
    if let Some(lmsi) = lmsi {
        four_octets(lmsi);
    }
}

fn four_octets(lmsi: &Lmsi)
    ensures count { length lmsi.now ≡ 4 }
    ensures octets { AreOctets lmsi.now }
{
    are_octets(lmsi.as_slice());
}

pub fn are_octets(numbers: &[u8])
    ensures { AreOctets numbers.now }
{
    let _numbers = numbers;
}
