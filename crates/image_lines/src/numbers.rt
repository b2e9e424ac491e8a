//! Numbers in decimal, each in its one form.

ghost use Rattle.std.specs.Prelude.{◌≡◌, ◌≤◌, ◌<◌, ◌^◌, ℕ, ℤ, FitsSigned, IfSome, Some};
ghost use Rattle.std.specs.Fmt.{decimal, signed_decimal};
ghost use Rattle.std.specs.Int.{w8};
ghost use Rattle.image_lines.specs.Reading.{decimal_in, is_plain, is_plain_signed, signed_in, up_to};

/// A number in decimal, without a leading zero.
pub(crate) fn read_decimal(field: &[u8]) -> Option<u64>
    ensures found { IfSome result (λ n. field.now ≡ decimal n) }
    ensures only { (n : ℕ) → n < 2 ^ 64 → field.now ≡ decimal n → result ≡ Some n }
    ensures exact { result ≡ decimal_in field.now }
{
    parse_decimal(field)
}

fn parse_decimal(field: &[u8]) -> Option<u64>
    ensures found { IfSome result (λ n. field.now ≡ decimal n) }
    ensures only { (n : ℕ) → n < 2 ^ 64 → field.now ≡ decimal n → result ≡ Some n }
    ensures fits { IfSome result (λ n. n < 2 ^ 64) }
{
    if !is_plain(field) {
        return None;
    }
    let Ok(digits) = str::from_utf8(field) else {
        return None;
    };
    match digits.parse::<u64>() {
        Ok(number) => Some(number),
        Err(_) => None,
    }
}

/// A number up to a limit.
#[tactic(auto, unfolding(crate::specs::Reading::up_to))]
pub(crate) fn read_up_to(field: &[u8], most: u64) -> Option<u64>
    ensures exact { result ≡ up_to most field.now }
    ensures small { IfSome result (λ n. n ≤ most) }
{
    let number = read_decimal(field)?;
    if number <= most { Some(number) } else { None }
}

/// A number from -128 to 127 in decimal, without a leading zero; `-0` is none.
pub(crate) fn read_signed(field: &[u8]) -> Option<i8>
    ensures found { IfSome result (λ z. field.now ≡ signed_decimal z) }
    ensures only { (z : ℤ) → FitsSigned w8 z → field.now ≡ signed_decimal z → result ≡ Some z }
    ensures exact { result ≡ signed_in field.now }
{
    parse_signed(field)
}

fn parse_signed(field: &[u8]) -> Option<i8>
    ensures found { IfSome result (λ z. field.now ≡ signed_decimal z) }
    ensures only { (z : ℤ) → FitsSigned w8 z → field.now ≡ signed_decimal z → result ≡ Some z }
    ensures fits { IfSome result (λ z. FitsSigned w8 z) }
{
    if !is_plain_signed(field) {
        return None;
    }
    let Ok(digits) = str::from_utf8(field) else {
        return None;
    };
    match digits.parse::<i8>() {
        Ok(number) => Some(number),
        Err(_) => None,
    }
}

/// Whether the text begins with a digit, which is 0 only if it is the only one.
fn is_plain(text: &[u8]) -> bool
    ensures { result ≡ is_plain text.now }
{
    match text {
        [] => false,
        [b'0', more @ ..] => more.is_empty(),
        [first, ..] => b'1' <= *first && *first <= b'9',
    }
}

/// The same of a number with its sign: after `-` there is no 0.
fn is_plain_signed(text: &[u8]) -> bool
    ensures { result ≡ is_plain_signed text.now }
{
    match text {
        [b'-', b'0', ..] => false,
        [b'-', digits @ ..] => is_plain(digits),
        _ => is_plain(text),
    }
}
