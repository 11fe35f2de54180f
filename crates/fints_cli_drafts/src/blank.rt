//! Whether a script keeps PIN and TAN out of its text.
ghost use Rattle.std.specs.Prelude.{◌≡◌, [], IsTrue, get_or};
ghost use Rattle.std.specs.Char.{is_ascii_alphanumeric};
ghost use Rattle.std.specs.List.{All, list_all, list_any};
ghost use Rattle.fints_cli_drafts_accounts.specs.Offers.{AreOffered};
ghost use Rattle.fints_cli_drafts.specs.Drafts.{HasBlankNewPin, HasBlankPin, IsBlank, IsDraftClass, IsDraftField, IsDraftSigner, IsDraftStep, IsLastBlank, IsReference, KeepsSecrets, has_secret, is_digits, is_draft_text, is_latin, is_secret_field};

use fints_cli_drafts_accounts::{AccountList, are_offered};
use fints_cli_drafts_names::{is_field_name, is_signer_named, is_step_named};
use fints_script::{
    Field, NamedField, Script, Signer, Step, Template, TemplateElements, TemplateItem,
};
use fints_script_fields::{Alphabet, Text};

// Whether an item is a field, or empty.
fn is_blank(item: &TemplateItem) -> bool
    ensures { IsTrue result → IsBlank item.now }
{
    match item {
        TemplateItem::Literal(item) => item.value().is_empty(),
        TemplateItem::Dialog => false,
        TemplateItem::Field(_) => true,
    }
}

// Whether the items of an element are so, by its place, which counts from 0, and it is the last one; or there
// is no such element.
fn is_last_blank(elements: &TemplateElements, place: usize) -> bool
    ensures { IsTrue result → IsLastBlank elements.now place }
{
    let elements = elements.as_slice();
    match elements.get(place) {
        None => true,
        Some(items) => elements.len() == place + 1 && items.iter().all(is_blank),
    }
}

// Whether the items of an element are so, by its place, which counts from 0.
fn is_blank_element(elements: &TemplateElements, place: usize) -> bool
    ensures { IsTrue result → All IsBlank (get_or elements.now place []) }
{
    match elements.as_slice().get(place) {
        None => true,
        Some(items) => items.iter().all(is_blank),
    }
}

fn is_plain(value: &[u8]) -> bool
    ensures { result ≡ list_all is_ascii_alphanumeric value.now }
{
    value.iter().all(|b| b.is_ascii_alphanumeric())
}

fn is_reference(items: &[TemplateItem]) -> bool
    ensures { IsTrue result → IsReference items.now }
{
    match items {
        [] => true,
        [TemplateItem::Literal(item)] => is_plain(item.value()),
        [TemplateItem::Field(_)] => true,
        _ => false,
    }
}

// Whether the first element is a control reference, or absent.
fn has_reference(elements: &TemplateElements) -> bool
    ensures { IsTrue result → IsReference (get_or elements.now 0 []) }
{
    match elements.as_slice().get(0) {
        None => true,
        Some(items) => is_reference(items.as_slice()),
    }
}

fn has_blank_pin(signer: &Signer) -> bool
    ensures { IsTrue result → HasBlankPin signer.now }
{
    has_reference(&signer.end) && is_blank_element(&signer.end, 1) && is_last_blank(&signer.end, 2)
}

fn has_blank_new_pin(template: &Template) -> bool
    ensures { IsTrue result → HasBlankNewPin template.now }
{
    !template.kind.is(b"HKPAE") || is_last_blank(&template.elements, 0)
}

fn are_blank_new_pins(templates: &[Template]) -> bool
    ensures { IsTrue result → All HasBlankNewPin templates.now }
{
    templates.iter().all(has_blank_new_pin)
}

fn is_latin(alphabet: Alphabet) -> bool
    ensures { result ≡ is_latin alphabet }
{
    matches!(alphabet, Alphabet::Latin)
}

fn is_digits(alphabet: Alphabet) -> bool
    ensures { result ≡ is_digits alphabet }
{
    matches!(alphabet, Alphabet::Digits)
}

fn is_draft_text(text: &Text) -> bool
    ensures { result ≡ is_draft_text text.now }
{
    (is_latin(text.alphabet)
        && text.min == 1
        && (text.max == 14 || text.max == 30 || text.max == 35 || text.max == 99))
        || (is_digits(text.alphabet)
            && (text.min == 8 && text.max == 8 || text.min == 6 && text.max == 6))
}

fn is_draft_class(lists: &[AccountList], class: &Field) -> bool
    ensures { IsTrue result → IsDraftClass (AreOffered lists.now) class.now }
{
    match class {
        Field::Text(text) => is_draft_text(text),
        Field::Bin(bin) => bin.min == 1 && bin.max == 99,
        Field::OneOf(_) => false,
        Field::Account(account) => are_offered(lists, account.values.as_slice()),
    }
}

fn is_draft_field(lists: &[AccountList], field: &NamedField) -> bool
    ensures { IsTrue result → IsDraftField (AreOffered lists.now) field.now }
{
    is_field_name(field.name.as_bytes()) && is_draft_class(lists, &field.class)
}

fn is_draft_signer(signer: &Signer) -> bool
    ensures { IsTrue result → IsDraftSigner signer.now }
{
    is_signer_named(signer) && has_blank_pin(signer)
}

fn is_draft_step(step: &Step, most: usize) -> bool
    ensures { IsTrue result → IsDraftStep most step.now }
{
    is_step_named(step, most) && are_blank_new_pins(step.templates())
}

fn are_draft_fields(lists: &[AccountList], fields: &[NamedField]) -> bool
    ensures { IsTrue result → All (IsDraftField (AreOffered lists.now)) fields.now }
{
    fields.iter().all(|field| is_draft_field(lists, field))
}

fn are_draft_signers(signers: &[Signer]) -> bool
    ensures { IsTrue result → All IsDraftSigner signers.now }
{
    signers.iter().all(is_draft_signer)
}

fn are_draft_steps(steps: &[Step], most: usize) -> bool
    ensures { IsTrue result → All (IsDraftStep most) steps.now }
{
    steps.iter().all(|step| is_draft_step(step, most))
}

fn is_secret_field(field: &NamedField) -> bool
    ensures { result ≡ is_secret_field field.now }
{
    match &field.class {
        Field::Text(text) => text.max == 99,
        Field::Bin(_) => true,
        _ => false,
    }
}

/// Whether a case of the script holds a PIN, a TAN or a new PIN.
pub fn has_secret(script: &Script) -> bool
    ensures { result ≡ has_secret script.now }
{
    script.fields().iter().any(is_secret_field)
}

/// Whether PIN, TAN and new PIN are values of fields, and the last elements of their segments; each list of
/// accounts is one of these; and the names say nothing of what was recorded but the kinds of segments. A recording
/// has at most that number of messages of the client.
pub fn keeps_secrets(lists: &[AccountList], most: usize, script: &Script) -> bool
    ensures { IsTrue result → KeepsSecrets (AreOffered lists.now) most script.now }
{
    if !are_draft_fields(lists, script.fields()) {
        return false;
    }
    if !are_draft_signers(script.signers()) {
        return false;
    }
    are_draft_steps(script.steps(), most)
}
