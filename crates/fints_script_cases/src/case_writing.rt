//! The texts of cases.
ghost use Rattle.std.specs.Prelude.{◌≡◌, ◌≤◌, ◌<◌, [], ◌∷◌, ◌++◌, length, OnOk, IfOk};
ghost use Rattle.std.specs.List.{All};
ghost use Rattle.fints_script_cases.specs.Answers.{IsAnswer};
ghost use Rattle.fints_syntax_texts.specs.declared.lines.TheConstants.{MAX_TEXT};
ghost use Rattle.fints_script_cases.specs.Cases.{value_text, field_text, codes_text, answer_text, case_text, AreFields, IsNamedValue, IsCaseOf};

use crate::case::{Answer, Case};
use crate::pattern::digits_of;
use crate::values::NamedValue;
use fints_params::Code;
use fints_syntax::Memory;
use std::alloc::Global;

fn write_value(alloc: Global, out: &mut Vec<u8>, value: &[u8]) -> Result<(), Memory>
    ensures text { OnOk result (out.new.items ≡ out.old.items ++ value_text value.now) }
    ensures bytes { All (λ b. b < 256) value.now }
{
    if value.is_empty() {
        out.push(b'-')?;
        return Ok(());
    }
    let digits = hex::encode(alloc, value)?;
    out.extend_from_slice(digits.as_bytes())?;
    Ok(())
}

/// Adds a field's line.
fn write_field(alloc: Global, out: &mut Vec<u8>, pair: &NamedValue) -> Result<(), Memory>
    ensures text { OnOk result (out.new.items ≡ out.old.items ++ (field_text pair.now ++ 10 ∷ [])) }
    ensures good { OnOk result (IsNamedValue pair.now) }
{
    out.extend_from_slice(b"field ")?;
    out.extend_from_slice(pair.name.as_bytes())?;
    out.push(b' ')?;
    write_value(alloc, out, pair.value.as_slice())?;
    out.push(b'\n')?;
    Ok(())
}

/// Adds each code after a space.
fn write_codes(out: &mut Vec<u8>, codes: &[Code]) -> Result<(), Memory>
    ensures text { OnOk result (out.new.items ≡ out.old.items ++ codes_text codes.now) }
    ensures small { OnOk result (All (λ code. code < 10000) codes.now) }
{
    for code in codes {
        out.push(b' ')?;
        out.extend_from_slice(&digits_of(*code))?;
    }
    Ok(())
}

/// Adds an answer's line.
fn write_answer(out: &mut Vec<u8>, answer: &Answer) -> Result<(), Memory>
    ensures text { OnOk result (out.new.items ≡ out.old.items ++ (answer_text answer.now ++ 10 ∷ [])) }
    ensures good { OnOk result (IsAnswer answer.now) }
{
    out.extend_from_slice(b"answer")?;
    write_codes(out, answer.codes())?;
    out.push(b'\n')?;
    Ok(())
}

impl Case {
    /// The text of the case. It can be read again where its names are those of a case and it has
    /// at most 1,048,576 bytes.
    pub fn write(&self, alloc: Global) -> Result<Vec<u8>, Memory>
        ensures text { IfOk result (λ text. text.items ≡ case_text self.now.values self.now.answers.items) }
        ensures readable { IfOk result (λ text. AreFields self.now.values → length text.items ≤ MAX_TEXT →
            IsCaseOf text.items self.now.values self.now.answers.items) }
    {
        let mut out = Vec::new(alloc);
        out.extend_from_slice(b"fints-case 1\n")?;
        for pair in self.values.pairs() {
            write_field(alloc, &mut out, pair)?;
        }
        for answer in &self.answers {
            write_answer(&mut out, answer)?;
        }
        Ok(out)
    }
}
