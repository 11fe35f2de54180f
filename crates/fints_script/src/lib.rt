//! Dialogue scripts: what their texts denote, and the plans that they become with an order table.
#![tactic(auto)]

mod around;
mod branches;
mod field_rows;
pub mod laws;
mod opens;
mod plan;
mod rows;
mod script;
mod signers;
mod step_reading;
mod steps;
mod top;

pub use fints_script_cases::{
    Answer, Branch, Case, CaseFault, NamedValue, Pattern, Target, Values,
};
pub use fints_script_fields::{
    Account, AccountValue, Accounts, Alphabet, Bin, Digits, Field, FieldClass, Name, OneOf, Plain,
    Text, Texts, class_laws,
};
pub use fints_script_rows::limits::MAX_STEPS;
pub use fints_script_rows::{FaultKind, NamedField, Place, ScriptFault, limits};
pub use fints_script_templates::{Signer, Template, TemplateElements, TemplateItem};
pub use fints_syntax::Memory;
pub use opens::PlanFault;
pub use plan::Plan;
pub use script::Script;
pub use steps::Step;
