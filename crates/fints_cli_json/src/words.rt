//! The words by which an object names rules, causes and verdicts.
ghost use Rattle.std.specs.Prelude.{◌≡◌};
ghost use Rattle.fints_cli_json.specs.Words as words;
ghost use Rattle.fints_rules.specs.Causes.{cause_rule};

use fints_rules::{Cause, Rule};

/// The number of a rule, as it is printed.
pub fn rule_code(rule: Rule) -> &'static str
    ensures { result.now ≡ words.rule_code rule }
{
    match rule {
        Rule::Protocol => "P1",
        Rule::Number => "P2",
        Rule::Size => "P3",
        Rule::Kinds => "P4",
        Rule::Version => "P5",
        Rule::Orders => "P6",
        Rule::Listed => "P7",
        Rule::Signatures => "P8",
        Rule::Account => "P9",
        Rule::Tan => "P10",
        Rule::Release => "P11",
        Rule::Procedure => "P12",
    }
}

/// The name of a rule, as it is printed.
pub fn rule_word(rule: Rule) -> &'static str
    ensures { result.now ≡ words.rule_word rule }
{
    match rule {
        Rule::Protocol => "protocol",
        Rule::Number => "number",
        Rule::Size => "size",
        Rule::Kinds => "kinds",
        Rule::Version => "version",
        Rule::Orders => "orders",
        Rule::Listed => "listed",
        Rule::Signatures => "signatures",
        Rule::Account => "account",
        Rule::Tan => "tan",
        Rule::Release => "release",
        Rule::Procedure => "procedure",
    }
}

// The rule that a cause is one of.
fn rule_of(cause: Cause) -> Rule
    ensures { result ≡ cause_rule cause }
{
    match cause {
        Cause::OtherVersion | Cause::NoParameters => Rule::Version,
        Cause::TooManyOrders => Rule::Orders,
        Cause::Unlisted => Rule::Listed,
        Cause::OrderNeedsMore | Cause::AccountNeedsMore => Rule::Signatures,
        Cause::NoOrderRow | Cause::AccountLocked => Rule::Account,
        Cause::NoTan | Cause::NoTanSent => Rule::Tan,
        Cause::OneOrderAtATime | Cause::NoOneStep => Rule::Procedure,
    }
}

fn cause_word(cause: Cause) -> &'static str
    ensures { result.now ≡ words.cause_word cause }
{
    match cause {
        Cause::OtherVersion => "OtherVersion",
        Cause::NoParameters => "NoParameters",
        Cause::TooManyOrders => "TooManyOrders",
        Cause::Unlisted => "Unlisted",
        Cause::OrderNeedsMore => "OrderNeedsMore",
        Cause::AccountNeedsMore => "AccountNeedsMore",
        Cause::NoOrderRow => "NoOrderRow",
        Cause::AccountLocked => "AccountLocked",
        Cause::NoTan => "NoTan",
        Cause::NoTanSent => "NoTanSent",
        Cause::OneOrderAtATime => "OneOrderAtATime",
        Cause::NoOneStep => "NoOneStep",
    }
}

// The only cause of a rule, or one of its causes.
fn some_cause(rule: Rule) -> &'static str
    ensures { result.now ≡ words.some_cause rule }
{
    match rule {
        Rule::Protocol => "ProtocolUnlisted",
        Rule::Number => "NumberTooHigh",
        Rule::Size => "TooLong",
        Rule::Kinds => "TooManyKinds",
        Rule::Version => "NoParameters",
        Rule::Orders => "TooManyOrders",
        Rule::Listed => "Unlisted",
        Rule::Signatures => "OrderNeedsMore",
        Rule::Account => "AccountLocked",
        Rule::Tan => "NoTan",
        Rule::Release => "NotReleased",
        Rule::Procedure => "OneOrderAtATime",
    }
}

/// The word of the cause for which a rule is broken. A cause of another rule says nothing.
pub fn cause_in(rule: Rule, cause: Option<Cause>) -> &'static str
    ensures { result.now ≡ words.cause_in rule cause }
{
    match cause {
        Some(cause) if rule_code(rule_of(cause)) == rule_code(rule) => cause_word(cause),
        _ => some_cause(rule),
    }
}

/// The word of a judge's status.
pub fn judge_word(status: u8) -> &'static str
    ensures { result.now ≡ words.judge_word status }
{
    if status == 0 { "permitted" } else { "broken" }
}

/// The word of the status of a script's report.
pub fn clean_word(status: u8) -> &'static str
    ensures { result.now ≡ words.clean_word status }
{
    if status == 0 { "clean" } else { "broken" }
}

/// The word of the status of `verify`.
pub fn valid_word(status: u8) -> &'static str
    ensures { result.now ≡ words.valid_word status }
{
    if status == 0 { "valid" } else { "invalid" }
}
