//! The digits before a separator.

ghost use Rattle.std.specs.Prelude.{◌≡◌, false, IfSome, option_map};
ghost use Rattle.hlr_types.specs.Digits.{AreSomeDigits};
ghost use Rattle.hlr_types.specs.DigitTexts.{is_digit};
ghost use Rattle.texts.specs.Lines.{parts};
ghost use Rattle.records.specs.Reading.{first_digits};

use hlr_types::Digits;

/// The digits before the first separator, and the text after it. `None` if none is there, or it does not end digits. As these
/// are read where the separator is sought, each character is looked at once.
#[inline(always)]
pub fn cut_digits(text: &[u8], separator: u8) -> Option<(Digits, &[u8])>
    requires { is_digit separator ≡ false }
    ensures parts { option_map (λ cut. (cut.0, parts separator cut.1.now)) result ≡ first_digits (parts separator text.now) }
    ensures digits { IfSome result (λ cut. AreSomeDigits cut.0) }
{
    Digits::from_front(text, separator)
}
