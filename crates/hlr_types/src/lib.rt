//! Digits, identities, addresses and transaction ids, each stored in place: nothing here allocates.
//!
//! Contracts see each of these as a list of numbers: digits as numbers from 0 to 9, and ids as octets. A `Register` is
//! seen as the record of its fields.
#![tactic(auto)]

mod address;
mod digits;
mod ids;
mod imsi;
mod peer;
mod register;
mod short_list;
mod tbcd;

pub use address::{INTERNATIONAL_E164, IsdnAddress, law_address_forms};
pub use digits::{Digits, law_text_forms};
pub use ids::{RemoteId, Tid, law_id_numbers};
pub use imsi::{Imsi, law_imsi_forms};
pub use peer::Peer;
pub use register::{Lmsi, Register};
pub use short_list::ShortList;
pub use tbcd::{Tbcd, TbcdFault, law_two_forms, tbcd_read, tbcd_write};
