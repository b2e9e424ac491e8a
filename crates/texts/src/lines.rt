//! The lines of a text.

ghost use Rattle.std.specs.Prelude.{◌≡◌, ◌<◌, ◌+◌, ◌^◌, ◌∷◌, [], length, IsNone, IfSome, ◌↔◌};
ghost use Rattle.texts.specs.Lines.{lines};

use crate::cutting::cut;

/// A line, without its line feed, and its number, counted from 1.
#[derive(Clone, Copy)]
pub struct Numbered<'a> {
    pub number: u64,
    pub text: &'a [u8],
}

/// The lines of a text from a place on, and how many come before.
#[derive(Clone, Copy)]
pub struct Lines<'a> {
    pub rest: &'a [u8],
    pub before: u64,
    ghost few: { before + length rest.now < 2 ^ 64 },
}

impl<'a> Lines<'a> {
    /// All lines of a text.
    pub fn new(text: &'a [u8]) -> Lines<'a>
        ensures whole { result.rest.now ≡ text.now }
        ensures first { result.before ≡ 0 }
    {
        let _count = text.len();
        Lines {
            rest: text,
            before: 0,
        }
    }

    /// The next line, and those after it.
    #[tactic(auto, using(crate::proofs::LinesLemmas::lines_nil))]
    pub fn next(self) -> Option<(Numbered<'a>, Lines<'a>)>
        ensures end { IsNone result ↔ (self.entry.rest.now ≡ []) }
        ensures line { IfSome result (λ p. lines self.entry.rest.now
            ≡ p.0.text.now ∷ lines p.1.rest.now) }
        ensures number { IfSome result (λ p. p.0.number ≡ self.entry.before + 1) }
        ensures before { IfSome result (λ p. p.1.before ≡ self.entry.before + 1) }
        ensures shorter { IfSome result (λ p. length p.1.rest.now < length self.entry.rest.now) }
    {
        if self.rest.is_empty() {
            return None;
        }
        let (text, rest) = first_line(self.rest);
        let line = Numbered {
            number: self.before + 1,
            text,
        };
        let behind = Lines {
            rest,
            before: line.number,
        };
        Some((line, behind))
    }
}

/// The first line, without its line feed, and what follows it.
#[tactic(auto, using(crate::proofs::LinesLemmas::lines_more, crate::proofs::LinesLemmas::lines_last), unfolding(crate::specs::Lines::lines))]
pub fn first_line(text: &[u8]) -> (&[u8], &[u8])
    requires { 0 < length text.now }
    ensures lines { lines text.now ≡ result.0.now ∷ lines result.1.now }
    ensures shorter { length result.1.now < length text.now }
{
    match cut(text, b'\n') {
        (line, Some(rest)) => (line, rest),
        (line, None) => (line, &[]),
    }
}
