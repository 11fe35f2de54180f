//! What a reader of lines takes from the front of a text.
ghost use Rattle.std.specs.Prelude.{◌≡◌, ◌≢◌, ◌≤◌, ◌++◌, ℕ, List, length, IfSome, IfNone};
ghost use Rattle.std.specs.List.{All};
ghost use Rattle.fints_syntax_texts.specs.Lines.{IsSplit, IsNextLine, HasNoNextLine};

/// The most bytes of a text.
pub const MAX_TEXT: usize = 1_048_576;

/// What comes after these bytes.
pub fn after<'a>(text: &'a [u8], front: &[u8]) -> Option<&'a [u8]>
    ensures rest { IfSome result (λ rest. text.now ≡ front.now ++ rest.now) }
    ensures none { IfNone result ((rest : List ℕ) → text.now ≢ front.now ++ rest) }
{
    text.strip_prefix(front)
}

/// What comes before and after the first such byte.
pub fn split_once(text: &[u8], byte: u8) -> Option<(&[u8], &[u8])>
    ensures parts { IfSome result (λ parts. IsSplit byte text.now parts.0.now parts.1.now) }
    ensures none { IfNone result (All (λ b. b ≢ byte) text.now) }
{
    let end = text.iter().position(|b| *b == byte)?;
    Some((&text[..end], &text[end + 1..]))
}

/// The line that the rest of a text of `whole` bytes begins with, and what comes after it.
pub fn next_line(whole: usize, rest: &[u8]) -> Option<(&[u8], &[u8])>
    requires { length rest.now ≤ whole }
    ensures line { IfSome result (λ parts. IsNextLine whole rest.now parts.0.now parts.1.now) }
    ensures none { IfNone result (HasNoNextLine whole rest.now) }
{
    let (line, more) = split_once(rest, b'\n')?;
    if whole - more.len() > MAX_TEXT {
        return None;
    }
    Some((line, more))
}
