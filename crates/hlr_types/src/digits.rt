//! Digits.

ghost use Rattle.std.proofs.Common.{rules};
ghost use Rattle.std.specs.Cmp.Lexicographic.{slice_cmp, pointwise};
ghost use Rattle.std.specs.Cmp.Rules.{comparing};
ghost use Rattle.std.specs.Cmp.{partial_order_from_own_ties};
ghost use Rattle.std.specs.Fmt.{padded};
ghost use Rattle.std.specs.Ordering.{nat_cmp, on, as_partial_cmp};
ghost use Rattle.std.specs.Prelude.{◌≡◌, ◌<◌, ◌≤◌, ◌+◌, ◌-◌, ◌*◌, ◌&&◌, ◌∷◌, ◌++◌, nat_le, slice_index, List, ℕ, length, map, take, IfSome, IsSomeAnd, Some, true, false, nat_eq};
ghost use Rattle.std.specs.Str.{IsAscii};
ghost use Rattle.std.specs.List.{list_all, starts_with};
ghost use Rattle.hlr_types.specs.Digits.{AreSomeDigits};
ghost use Rattle.hlr_types.specs.Words.{IsWord, in_word, packed};
ghost use Rattle.hlr_types.specs.DigitTexts.{digits_in, is_digit, text_of, AreTextForms, IsText};

use crate::short_list::ShortList;
use std::cmp::Ordering;
use std::fmt;
use std::marker::Model;

/// 1 to 16 digits from 0 to 9, which contracts see as a list. Digits are a text: leading zeros count, and the order is that
/// of texts, so `12` comes before `2` and before `120`.
///
/// They are kept in one word of sixteen half octets, from the highest on: each digit plus one, and 0 if there is none.
/// So the order of words is the order of texts.
#[derive(Clone, Copy, Debug)]
pub struct Digits {
    word: u64,
}

impl Model for Digits {
    ghost use Rattle.std.specs.Prelude.{List, ℕ};

    ghost Value = { List ℕ };

    ghost use Rattle.hlr_types.specs.Words.{in_word, word_of, IsWord, same_word};

    ghost view = { λ d. in_word d.word };

    ghost invariant = { λ d. IsWord d.word };

    ghost inverse = { λ v. record { word = word_of v } };

    ghost inverse_ok = { λ a h. same_word (λ w. record { word = w }) a.word h };
}

impl Digits {
    /// The digits of an ASCII text of 1 to 16 digits.
    #[tactic(auto, using(crate::proofs::TextLemmas::text_laws))]
    pub fn from_text(text: &[u8]) -> Option<Digits>
        // What is read has this text, and what has this text is read.
        ensures found { IfSome result (λ digits. IsText text.now digits) }
        ensures only { (digits : List ℕ) → IsText text.now digits → result ≡ Some digits }
        ensures exact { result ≡ digits_in text.now }
    {
        from_text(text)
    }

    /// The digits that an ASCII text begins with, if they are 1 to 16 and this character follows them, and the text after it.
    /// One look finds where they end and that they are digits: nearly every line of a script has an address that is read so.
    pub fn from_front(text: &[u8], end: u8) -> Option<(Digits, &[u8])>
        ensures found { IfSome result (λ r. AreSomeDigits r.0 × (text.now ≡ text_of r.0 ++ end ∷ r.1.now)) }
        // What stands there so is found, unless the character is a digit itself.
        ensures only { is_digit end ≡ false → (digits rest : List ℕ) → AreSomeDigits digits → text.now ≡ text_of digits ++ end ∷ rest
            → IsSomeAnd result (λ r. (r.0 ≡ digits) × (r.1.now ≡ rest)) }
    {
        let (number, count) = leading_number(text);
        if count == 0 || text.len() <= count || text[count] != end {
            return None;
        }
        Some((
            Digits::of_word(number << (64 - 4 * count)),
            &text[count + 1..],
        ))
    }

    /// The digits of a word.
    pub(crate) fn of_word(word: u64) -> Digits
        requires { IsWord word }
        ensures { result ≡ in_word word }
    {
        Digits { word }
    }

    /// The word of the digits.
    pub(crate) fn word(&self) -> u64
        ensures value { in_word result ≡ self.now }
        ensures word { IsWord result }
    {
        self.word
    }

    /// The digits, each from 0 to 9.
    pub fn list(&self) -> ShortList<16>
        ensures value { result ≡ self.now }
        ensures digits { AreSomeDigits result }
    {
        unpacked(self.word)
    }

    /// The number that they make, a half octet for each: their word without the empty half octets at its end.
    #[tactic(auto, using(crate::proofs::PlaceLemmas::prefix_laws))]
    fn number(&self) -> u64
        ensures value { result ≡ packed (length self.now) self.now }
        ensures digits { AreSomeDigits self.now }
    {
        let mut rest = self.word;
        while rest % 16 == 0 {
            rest /= 16;
        }
        rest
    }

    /// The number that the last two make.
    #[tactic(auto, using(crate::proofs::PlaceLemmas::last_two))]
    pub fn last_two(&self) -> u8
        requires { 2 ≤ length self.now }
        ensures value { result ≡ 10 * slice_index self.now (length self.now - 2)
            + slice_index self.now (length self.now - 1) }
        ensures small { result < 100 }
    {
        let number = self.number();
        10 * ((number / 16 % 16) as u8 - 1) + ((number % 16) as u8 - 1)
    }

    /// Whether they begin with this prefix.
    #[tactic(auto, using(crate::proofs::PlaceLemmas::prefix_laws))]
    pub fn starts_with(&self, prefix: &Digits) -> bool
        ensures { result ≡ starts_with nat_eq self.now prefix.now }
    {
        let mut start = self.word;
        let mut rest = prefix.word;
        while rest % 16 == 0 {
            start /= 16;
            rest /= 16;
        }
        rest == start
    }

    /// Whether there are 5 to 15, as an IMSI has.
    #[tactic(auto, using(crate::proofs::PlaceLemmas::count_laws))]
    pub(crate) fn have_imsi_count(&self) -> bool
        ensures { result ≡ (nat_le 5 (length self.now) && nat_le (length self.now) 15) }
    {
        (self.word >> 44) % 16 != 0 && self.word % 16 == 0
    }

    /// Fact: these are 1 to 16 digits. Nothing is computed.
    pub fn are_some_digits(&self)
        ensures { AreSomeDigits self.now }
    {
        self.word();
    }

    /// Their ASCII text: one octet for each digit, from `0` to `9`.
    #[tactic(auto, using(crate::proofs::PrintLemmas::none_printed))]
    pub fn text(&self) -> ShortList<16>
        ensures value { result ≡ text_of self.now }
        ensures ascii { IsAscii result }
    {
        // How many there are is counted beside them: in the list it would be written for each, and read again for the next.
        let mut items = [0u8; 16];
        let mut count: usize = 0;
        let mut rest = self.word;
        while rest != 0 {
            items[count] = (rest >> 60) as u8 + (b'0' - 1);
            count += 1;
            rest <<= 4;
        }
        ShortList::of_parts(&items, count as u8)
    }
}

impl PartialEq for Digits {
    ghost eq = { on (λ d. d) (pointwise nat_eq) };

    ghost laws = { Prim.search (comparing, rules) };

    #[tactic(auto, using(crate::proofs::WordLemmas::word_order))]
    fn eq(&self, other: &Digits) -> bool {
        self.word == other.word
    }
}

impl Eq for Digits {
    ghost laws = { Prim.search (comparing, rules) };
}

impl Ord for Digits {
    ghost cmp = { on (λ d. d) (slice_cmp nat_cmp) };

    ghost total = { Prim.search (comparing, rules) };

    ghost matches_partial_cmp = { Prim.search (comparing, rules) };

    ghost matches_eq = { Prim.search (comparing, rules) };

    #[tactic(auto, using(crate::proofs::WordLemmas::word_order))]
    fn cmp(&self, other: &Digits) -> Ordering {
        self.word.cmp(&other.word)
    }
}

impl PartialOrd for Digits {
    ghost partial_cmp = { as_partial_cmp (on (λ d. d) (slice_cmp nat_cmp)) };

    ghost laws = { partial_order_from_own_ties (Prim.search (comparing, rules))
        (Prim.search (comparing, rules)) };

    fn partial_cmp(&self, other: &Digits) -> Option<Ordering> {
        Some(self.cmp(other))
    }
}

/// Writes the digits as their text.
impl fmt::Display for Digits {
    ghost output = { λ digits. Some (text_of digits) };

    ghost styled_output = { λ digits spec. Some (padded spec (text_of digits)) };

    fn fmt<W: fmt::Write>(&self, f: &mut fmt::Formatter<W>) -> fmt::Result {
        let text = self.text();
        let Ok(text) = str::from_utf8(text.as_slice()) else {
            unreachable!();
        };
        f.pad(text)
    }
}

fn from_text(text: &[u8]) -> Option<Digits>
    ensures { result ≡ digits_in text.now }
{
    if text.is_empty() || text.len() > 16 || !are_digits(text) {
        return None;
    }
    Some(Digits::of_word(packed_text(text)))
}

fn are_digits(text: &[u8]) -> bool
    ensures { result ≡ list_all is_digit text.now }
{
    text.iter().all(|octet| is_digit(*octet))
}

/// The number that the digits at the front of a text make, a half octet for each, and how many they are; the first sixteen, if
/// they are more.
#[tactic(auto, using(crate::proofs::FrontLemmas::front_steps))]
fn leading_number(text: &[u8]) -> (u64, usize)
    ensures within { result.1 ≤ length text.now }
    ensures most { result.1 ≤ 16 }
    ensures digits { list_all is_digit (take result.1 text.now) ≡ true }
    ensures number { result.0 ≡ packed result.1 (map (λ octet. octet - 48) (take result.1 text.now)) }
    // After them the text ends or has another character, or they are sixteen.
    ensures last { result.1 < 16 → result.1 < length text.now → is_digit (slice_index text.now result.1) ≡ false }
{
    let mut number = 0;
    let mut count = 0;
    for character in text {
        if count == 16 || !is_digit(*character) {
            break;
        }
        number = number * 16 + u64::from(*character - (b'0' - 1));
        count += 1;
    }
    (number, count)
}

fn is_digit(octet: u8) -> bool
    ensures { result ≡ is_digit octet }
{
    b'0' <= octet && octet <= b'9'
}

/// The word of a text of digits. It is made from the characters at once, as this is called for each line of a script.
#[tactic(auto, using(crate::proofs::TextLemmas::text_steps))]
fn packed_text(text: &[u8]) -> u64
    requires some { 0 < length text.now }
    requires most { length text.now ≤ 16 }
    requires digits { list_all is_digit text.now ≡ true }
    ensures value { in_word result ≡ map (λ octet. octet - 48) text.now }
    ensures word { IsWord result }
{
    let mut number: u64 = 0;
    for octet in text {
        number = number * 16 + u64::from(*octet - (b'0' - 1));
    }
    number << (64 - 4 * text.len())
}

/// The digits of a word, the highest first.
#[tactic(auto, using(crate::proofs::PackLemmas::unpack_laws))]
fn unpacked(word: u64) -> ShortList<16>
    requires { IsWord word }
    ensures value { result ≡ in_word word }
    ensures digits { AreSomeDigits result }
{
    let mut list = ShortList::new();
    let mut rest = word;
    while rest != 0 {
        list.push((rest >> 60) as u8 - 1);
        rest <<= 4;
    }
    list
}

/// Law: printed digits are read again, and read digits are printed as the text that was read.
#[tactic(auto, using(crate::proofs::TextLemmas::text_forms))]
pub fn law_text_forms()
    ensures { AreTextForms }
{}
