//! A case, as an object: the values of the fields, and the bank's answers.
ghost use Rattle.std.specs.Prelude.{◌≡◌, ◌∷◌, ◌++◌, map, OnOk};
ghost use Rattle.json.specs.Tree.{json_tokens};
ghost use Rattle.fints_cli_json.specs.Case.{answer_value, answers_member, case_members, field_members};
ghost use Rattle.fints_cli_json.specs.Tokens.{all_values, member_tokens};

use crate::latin::write_latin;
use crate::objects::{Object, write_list};
use crate::values::write_each_code;
use crate::writing::write_text;
use fints_script_cases::{Answer, Case, NamedValue};
use json::Writer;
use std::alloc::{AllocError, Global};

impl Object for NamedValue {
    ghost members = { field_members };

    #[tactic(auto, using(crate::proofs::ObjectLemmas::two_members))]
    fn write_members(&self, alloc: Global, out: &mut Writer) -> Result<(), AllocError> {
        write_latin(alloc, out, "name", self.name.as_bytes())?;
        let digits = hex::encode(alloc, self.value.as_slice())?;
        write_text(out, "hex", digits.as_str())
    }
}

#[tactic(auto, using(crate::proofs::ObjectLemmas::in_array))]
fn write_answer(alloc: Global, out: &mut Writer, answer: &Answer) -> Result<(), AllocError>
    ensures tokens { OnOk result (out.new.tokens ≡ out.old.tokens ++ json_tokens (answer_value answer.now)) }
    ensures before { out.new.before ≡ out.old.before }
{
    out.begin_array()?;
    write_each_code(alloc, out, answer.codes())?;
    out.end_array()
}

fn write_each_answer(alloc: Global, out: &mut Writer, answers: &[Answer]) -> Result<(), AllocError>
    ensures tokens { OnOk result
        (out.new.tokens ≡ out.old.tokens ++ all_values (map answer_value answers.now)) }
    ensures before { out.new.before ≡ out.old.before }
{
    for answer in answers {
        write_answer(alloc, out, answer)?;
    }
    Ok(())
}

#[tactic(auto, using(crate::proofs::ObjectLemmas::in_list))]
fn write_answers(alloc: Global, out: &mut Writer, answers: &[Answer]) -> Result<(), AllocError>
    ensures tokens { OnOk result
        (out.new.tokens ≡ out.old.tokens ++ member_tokens (answers_member answers.now)) }
    ensures before { out.new.before ≡ out.old.before }
{
    out.key("answers")?;
    out.begin_array()?;
    write_each_answer(alloc, out, answers)?;
    out.end_array()
}

impl Object for Case {
    ghost members = { λ case. case_members case.values case.answers.items };

    #[tactic(auto, using(crate::proofs::ObjectLemmas::two_members))]
    fn write_members(&self, alloc: Global, out: &mut Writer) -> Result<(), AllocError> {
        write_list(alloc, out, "fields", self.values.pairs())?;
        write_answers(alloc, out, self.answers.as_slice())
    }
}
