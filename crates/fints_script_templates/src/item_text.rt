//! How the string of an item is read.
ghost use Rattle.std.specs.Prelude.{◌≡◌};
ghost use Rattle.fints_script_templates.specs.ItemTexts.{reading_of, read_as};

/// The string of an item: the name of a field after `$`, hex digits after `%`, or a text.
#[derive(Clone, Copy)]
pub enum ItemText<'a> {
    Reference(&'a str),
    Hex(&'a str),
    Literal(&'a str),
}

/// What a string of a script denotes.
pub fn item_text(text: &str) -> ItemText<'_>
    ensures { read_as result ≡ reading_of text.now }
{
    if let Some(name) = text.strip_prefix('$') {
        return ItemText::Reference(name);
    }
    if let Some(digits) = text.strip_prefix('%') {
        return ItemText::Hex(digits);
    }
    match text.strip_prefix('=') {
        Some(rest) => ItemText::Literal(rest),
        None => ItemText::Literal(text),
    }
}
