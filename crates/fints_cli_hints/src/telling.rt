//! The hint of a refusal, whatever its input.
use crate::admitted::admitted_hint;
use crate::cases::case_hint;
use crate::certs::cert_hint;
use crate::findings::finding_hint;
use crate::orders::orders_hint;
use crate::plans::plan_hint;
use crate::runs::run_hint;
use fints_cli_hints_scripts::script_hint;
use fints_cli_hints_segments::params_hint;
use fints_cli_hints_words::inputs::Inputs;
use fints_cli_hints_words::places::{HintText, say};
use fints_cli_texts::Fault;
use fints_script_cases::CaseFault;
use fints_syntax::Memory;
use std::alloc::Global;

const BEFORE_ANSWER: &str =
    "this is an answer of the bank (HIRMG): --before is the client's message that --answer answers";

const NO_CODE: &str = "this is no answer of the bank: it has no code in an HIRMG or HIRMS";

// What was said where an input was read.
fn seen_hint(alloc: Global, seen: Option<&str>) -> HintText {
    match seen {
        Some(text) => say(alloc, text),
        None => Ok(None),
    }
}

/// What to look at, for a refusal of these inputs: a line without LF. None where there is no more to
/// say, as when memory ran out.
pub fn hint(alloc: Global, fault: &Fault, inputs: &Inputs<'_>) -> Result<Option<String>, Memory> {
    match fault {
        Fault::Memory => Ok(None),
        Fault::Params(fault) => params_hint(alloc, fault, inputs.params),
        Fault::Orders(fault) => orders_hint(alloc, fault, inputs.orders),
        Fault::Script(fault) => script_hint(alloc, fault, inputs.script),
        Fault::Plan(fault) => plan_hint(alloc, fault, inputs.orders, inputs.script),
        Fault::Case(CaseFault::Bad { line }) => case_hint(alloc, *line, inputs.script, inputs.case),
        Fault::Case(CaseFault::Memory) => Ok(None),
        Fault::NotAdmitted => admitted_hint(alloc, inputs.script, inputs.case),
        Fault::NoMessage { number } => run_hint(alloc, *number, inputs.script, inputs.case),
        Fault::NoFinding { number } => finding_hint(alloc, *number),
        Fault::Certificate { line } => cert_hint(alloc, *line, inputs.certificate),
        Fault::Before { .. } | Fault::Message(_) => seen_hint(alloc, inputs.seen),
        Fault::Dialogue(_) | Fault::NotDraftable { .. } | Fault::NoPart { .. } => {
            seen_hint(alloc, inputs.seen)
        }
        Fault::BeforeAnswer => say(alloc, BEFORE_ANSWER),
        Fault::Answer(fault) => params_hint(alloc, fault, inputs.answer),
        Fault::NoCode => say(alloc, NO_CODE),
    }
}
