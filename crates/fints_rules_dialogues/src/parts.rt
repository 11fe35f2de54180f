//! The dialogues of a recording by their numbers.
ghost use Rattle.std.specs.Prelude.{◌≡◌, ◌+◌, ◌<◌, ◌≤◌, ℕ, List, ◌∷◌, ◌++◌, IfSome, IfNone, Some, true, false, count_by, drop, length, take};
ghost use Rattle.std.specs.List.{list_any};
ghost use Rattle.fints_rules_dialogues.specs.Parts.{begins, BeginsOrEnds, IsPart, LacksDialogue};
ghost use Rattle.fints_rules_dialogues.specs.declared.reading.Exchange.{Exchange as ExchangeValue};

use crate::reading::Exchange;

/// Exchanges of a recording that come one after the other, and how many of the recording come before them.
#[derive(Clone, Copy)]
pub struct DialoguePart<'e, 'a> {
    pub exchanges: &'e [Exchange<'a>],
    pub before: usize,
}

// How many exchanges come before the one that begins the dialogue of a number, which counts from 1.
fn count_before(exchanges: &[Exchange<'_>], number: usize) -> Option<usize>
    ensures some { IfSome result (λ n. (n < length exchanges.now)
        × (number ≡ count_by begins (take n exchanges.now) + 1)
        × ((first : ExchangeValue) (more : List ExchangeValue) → drop n exchanges.now ≡ first ∷ more
        → begins first ≡ true)) }
    ensures none { IfNone result (LacksDialogue exchanges.now number) }
{
    let mut begun = 0;
    for i in 0..exchanges.len() {
        if exchanges[i].begins {
            begun += 1;
            if begun == number {
                return Some(i);
            }
        }
    }
    None
}

// How many of the exchanges come before the next one that begins a dialogue.
fn count_until(exchanges: &[Exchange<'_>]) -> usize
    ensures within { result ≤ length exchanges.now }
    ensures none { list_any begins (take result exchanges.now) ≡ false }
    ensures ends { BeginsOrEnds (drop result exchanges.now) }
{
    for i in 0..exchanges.len() {
        if exchanges[i].begins {
            return i;
        }
    }
    exchanges.len()
}

// The exchanges from a place on, up to the next one after it that begins a dialogue.
fn dialogue_from<'e, 'a>(exchanges: &'e [Exchange<'a>], before: usize) -> &'e [Exchange<'a>]
    requires { before < length exchanges.now }
    ensures { (first : ExchangeValue) × (rest after : List ExchangeValue) × (result.now ≡ first ∷ rest)
        × (drop before exchanges.now ≡ result.now ++ after) × (list_any begins rest ≡ false)
        × BeginsOrEnds after }
{
    let (_, own) = exchanges.split_at(before);
    let (_, rest) = own.split_at(1);
    let (own, _) = own.split_at(1 + count_until(rest));
    own
}

/// The exchanges of the dialogue of a number, which counts from 1, or without a number all of them. There is none
/// where the recording has fewer dialogues, or the number is 0.
pub fn part_of<'e, 'a>(
    exchanges: &'e [Exchange<'a>],
    number: Option<u32>,
) -> Option<DialoguePart<'e, 'a>>
    ensures some { IfSome result (λ part. IsPart exchanges.now number part.exchanges.now) }
    ensures place { IfSome result (λ part. (after : List ExchangeValue)
        × (drop part.before exchanges.now ≡ part.exchanges.now ++ after)
        × (part.before ≤ length exchanges.now)) }
    ensures none { IfNone result ((n : ℕ) × (number ≡ Some n) × LacksDialogue exchanges.now n) }
{
    let Some(number) = number else {
        return Some(DialoguePart {
            exchanges,
            before: 0,
        });
    };
    let before = count_before(exchanges, number as usize)?;
    Some(DialoguePart {
        exchanges: dialogue_from(exchanges, before),
        before,
    })
}
