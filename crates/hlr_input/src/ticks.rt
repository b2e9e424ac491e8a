//! A clock value.

ghost use Rattle.std.specs.Prelude.{◌≡◌, ℕ, Some, IfSome};
ghost use Rattle.hlr_input.specs.Script.{IsTicks};
ghost use Rattle.hlr_input.specs.Reading.{is_plain};

use machine::numbers::MAX_CLOCK;

/// A clock value: 0 to 2^62 in decimal digits, without a leading zero.
pub fn read_ticks(text: &[u8]) -> Option<u64>
    ensures found { IfSome result (λ n. IsTicks text.now n) }
    ensures only { (n : ℕ) → IsTicks text.now n → result ≡ Some n }
{
    if !is_plain(text) {
        return None;
    }
    let Ok(digits) = str::from_utf8(text) else {
        return None;
    };
    let Ok(ticks) = digits.parse::<u64>() else {
        return None;
    };
    if ticks <= MAX_CLOCK {
        Some(ticks)
    } else {
        None
    }
}

/// Whether the text begins with a digit, which is 0 only if it is the only one.
fn is_plain(text: &[u8]) -> bool
    ensures { result ≡ is_plain text.now }
{
    match text {
        [] => false,
        [b'0', more @ ..] => more.is_empty(),
        [first, ..] => b'1' <= *first && *first <= b'9',
    }
}
