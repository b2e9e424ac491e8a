//! Inputs of the tests.

use hlr_types::{Digits, Imsi, IsdnAddress};

/// The IMSI with these digits, if they are one.
pub(crate) fn imsi(text: &str) -> Option<Imsi> {
    Imsi::from_digits(Digits::from_text(text.as_bytes())?).ok()
}

/// The number with these digits.
pub(crate) fn number(text: &str) -> Option<IsdnAddress> {
    Digits::from_text(text.as_bytes()).map(IsdnAddress::new)
}
