//! Which segment of a script leaves its account or its TAN process open, and what to write.
use crate::labels::{alphabet_name, name_text};
use fints_cli_hints_words::places::{HintText, say, written};
use fints_cli_hints_words::quoting::Bare;
use fints_rules::{AccountForm, OrderTable};
use fints_script::{PlanFault, Script, Step};
use fints_script_fields::Field;
use fints_script_rows::NamedField;
use fints_script_templates::{Template, TemplateItem};
use fints_syntax::Memory;
use std::alloc::Global;
use std::fmt;
use std::fmt::{Display, Formatter, Write};

fn class_name(field: &Field) -> &'static str {
    match field {
        Field::Text(c) => alphabet_name(c.alphabet),
        Field::Bin(_) => "bin",
        Field::OneOf(_) => "oneof",
        Field::Account(_) => "account",
    }
}

fn items_of(template: &Template) -> &[TemplateItem] {
    match template.elements.as_slice() {
        [first, ..] => first.as_slice(),
        [] => &[],
    }
}

/// What leaves an element open.
#[derive(Clone, Copy)]
enum OpenItem<'a> {
    Dialog,
    Field(&'a NamedField),
    Unknown,
}

// The first item that is no literal.
fn open_of<'a>(fields: &'a [NamedField], items: &[TemplateItem]) -> OpenItem<'a> {
    for item in items {
        match item {
            TemplateItem::Literal(_) => {}
            TemplateItem::Dialog => return OpenItem::Dialog,
            TemplateItem::Field(place) => {
                return match fields.get(*place) {
                    Some(field) => OpenItem::Field(field),
                    None => OpenItem::Unknown,
                };
            }
        }
    }
    OpenItem::Unknown
}

impl Display for OpenItem<'_> {
    fn fmt<W: Write>(&self, f: &mut Formatter<W>) -> fmt::Result {
        match *self {
            OpenItem::Dialog => f.write_str("$dialog, the id of the dialogue"),
            OpenItem::Field(field) => {
                let name = name_text(&field.name);
                let class = class_name(&field.class);
                write!(f, "${name}, a field of class {class}")
            }
            OpenItem::Unknown => f.write_str("a field"),
        }
    }
}

// The segment by its kind and version, and where it is.
fn place_text(
    alloc: Global,
    step: &Step,
    number: usize,
    entry: usize,
    template: &Template,
) -> Result<String, Memory> {
    let name = step.name();
    let name = name_text(&name);
    let kind = Bare(std::str::from_utf8(template.kind.as_bytes()).unwrap_or(""));
    let version = template.version;
    written(
        alloc,
        format_args!(
            "step {number} ({name}), {kind} version {version}, entry {entry} of its segments"
        ),
    )
}

/// What element 2 of a segment is, and what to write there.
#[derive(Clone, Copy)]
struct Second {
    what: &'static str,
    advice: &'static str,
}

const ACCOUNT_ITEMS: &str = "its items as texts, or one string $NAME of a field of class account";

fn second_of(account: bool, form: Option<AccountForm>) -> Second {
    match (account, form) {
        (true, Some(AccountForm::International)) => Second {
            what: "names the account (international in the order table)",
            advice: ACCOUNT_ITEMS,
        },
        (true, _) => Second {
            what: "names the account (national in the order table)",
            advice: ACCOUNT_ITEMS,
        },
        (false, _) => Second {
            what: "is the TAN process",
            advice: "the process as a text, as in \"4\"",
        },
    }
}

/// What of a plan's fault is the same for accounts and processes.
#[derive(Clone, Copy)]
struct Opened {
    step: usize,
    segment: usize,
    account: bool,
}

fn template_text(
    alloc: Global,
    script: &Script,
    orders: &OrderTable,
    opened: &Opened,
    step: &Step,
) -> HintText {
    let place = opened
        .segment
        .saturating_sub(step.signers().len().saturating_add(2));
    let Some(template) = step.templates().get(place) else {
        return Ok(None);
    };
    let open = open_of(script.fields(), items_of(template));
    let form = orders.form(template.kind, template.version);
    let Second { what, advice } = second_of(opened.account, form);
    let entry = place.saturating_add(1);
    let place = place_text(alloc, step, opened.step, entry, template)?;
    say(
        alloc,
        format_args!("{place}: element 2 {what}, and it has {open}; write {advice}"),
    )
}

fn opened_of(fault: &PlanFault) -> Opened {
    match fault {
        PlanFault::OpenAccount { step, segment } => Opened {
            step: *step,
            segment: *segment,
            account: true,
        },
        PlanFault::OpenProcess { step, segment } => Opened {
            step: *step,
            segment: *segment,
            account: false,
        },
    }
}

fn step_text(alloc: Global, script: &Script, orders: &OrderTable, opened: &Opened) -> HintText {
    match script.steps().get(opened.step.saturating_sub(1)) {
        Some(step) => template_text(alloc, script, orders, opened, step),
        None => Ok(None),
    }
}

/// Which segment leaves something open, and what to write in its element 2.
pub fn plan_hint(alloc: Global, fault: &PlanFault, orders: &[u8], script: &[u8]) -> HintText {
    let Ok(script) = Script::read(alloc, script) else {
        return Ok(None);
    };
    match OrderTable::read(alloc, orders) {
        Ok(orders) => step_text(alloc, &script, &orders, &opened_of(fault)),
        Err(_) => Ok(None),
    }
}
