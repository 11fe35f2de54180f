//! A text of lines, read line by line, whatever kind of text it is.
ghost use Rattle.std.specs.Prelude.{◌≡◌, IfOk, MatchOption};
ghost use Rattle.fints_syntax_texts.specs.Lines.{text_of_lines, AreTexts, BeginsText, IsFirstBadLineOf, IsHeaded};

use crate::lines::{after, next_line};
use fints_syntax_segments::Memory;

/// What takes the lines of a text of some kind, one after the other.
pub trait LineTaker {
    ghost use Rattle.std.specs.Prelude.{◌≡◌, ◌≤◌, ◌++◌, ◌∷◌, ◌↔◌, [], ℕ, List, length, IfOk, IsTrue, IsFalse};
    ghost use Rattle.fints_syntax_texts.specs.Lines.{text_of_lines, BeginsText};
    ghost use Rattle.fints_syntax_texts.specs.declared.lines.TheConstants.{MAX_TEXT};

    /// The lists of lines that make a text of the kind.
    ghost kind: { List (List ℕ) → Type 0 };

    /// The lines that it took.
    ghost lines: { Self → List (List ℕ) };

    /// It can take another line.
    ghost ready: { Self → Type 0 };

    /// Takes the next line, and returns whether it is one of a text of the kind.
    fn take(&mut self, line: &[u8]) -> Result<bool, Memory>
        requires ready { ready self.old }
        requires short { length (text_of_lines (lines self.old ++ line.now ∷ [])) ≤ MAX_TEXT }
        ensures lines { IfOk result (λ taken. IsTrue taken
            → lines self.new ≡ lines self.old ++ line.now ∷ []) }
        ensures ready { IfOk result (λ taken. IsTrue taken → ready self.new) }
        ensures begins { IfOk result (λ taken. IsTrue taken → BeginsText kind (lines self.new)) }
        ensures refused { IfOk result (λ taken.
            IsFalse taken → BeginsText kind (lines self.old ++ line.now ∷ []) → ⊥) };

    /// Whether the lines so far make a text of the kind.
    fn is_whole(&self) -> bool
        requires { ready self.now }
        ensures { IsTrue result ↔ kind (lines self.now) };
}

/// Has the lines of a text taken, up to the first that is none of a text of the kind: its number, from 1
/// on, is the answer. Each text of the kind begins with the front, whose line counts as taken.
pub fn read_lines<T: LineTaker>(
    text: &[u8],
    front: &[u8],
    taker: &mut T,
) -> Result<Option<u32>, Memory>
    requires texts { AreTexts T.kind }
    requires headed { IsHeaded T.kind front.now (T.lines taker.old) }
    requires begins { BeginsText T.kind (T.lines taker.old) }
    requires ready { T.ready taker.old }
    ensures { IfOk result (λ bad. MatchOption bad
        (T.ready taker.new × T.kind (T.lines taker.new) × (text.now ≡ text_of_lines (T.lines taker.new)))
        (IsFirstBadLineOf T.kind text.now)) }
{
    let Some(mut rest) = after(text, front) else {
        return Ok(Some(1));
    };
    let mut number = 2;
    while !rest.is_empty() {
        let Some((line, more)) = next_line(text.len(), rest) else {
            return Ok(Some(number));
        };
        if !taker.take(line)? {
            return Ok(Some(number));
        }
        rest = more;
        number += 1;
    }
    if taker.is_whole() {
        Ok(None)
    } else {
        Ok(Some(number))
    }
}
